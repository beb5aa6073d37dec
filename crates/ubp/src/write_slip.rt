// The writer of slips.
ghost use Rattle.std.specs.Prelude.{◌≡◌, ◌≤◌, ◌++◌, length};
ghost use Rattle.orders.specs.Codes.{kind_byte};
ghost use Rattle.ubp.specs.Answers.{head_fields, order_fields, accepted_fields, replaced_fields, executed_fields, cancelled_fields, rejected_fields, slip_bytes, slip_size, shown};
ghost use Rattle.ubp.specs.Formats.{message, message_size};
ghost use Rattle.ubp.specs.Writing.{Begun, Writes};

use crate::message::{Message, write_message};
use crate::put::put;
use crate::refusal::WriteRefusal;
use crate::shown::ShownTerms;
use orders::slip::{Slip, SlipKind};

// Each step asks for room for just what it puts, and one that tells terms is handed them as they are shown, so that they are looked up once.
// Writes how every answer begins.
fn put_head(slip: &Slip, out: &mut [u8])
    requires { 23 ≤ length out.old }
    ensures { Begun 23 (message (kind_byte slip.now.kind) head_fields slip.now) out.old out.new }
{
    put(out, 0, &[u8::from(slip.kind)]);
    put(out, 1, &slip.clock.to_be_bytes());
    put(out, 9, &slip.token);
}

// Writes how an answer that tells an order whole begins.
fn put_order(slip: &Slip, terms: &ShownTerms, out: &mut [u8])
    requires room { 63 ≤ length out.old }
    requires same { terms.now ≡ shown slip.now.terms }
    ensures { Begun 63 (message (kind_byte slip.now.kind) (head_fields ++ order_fields) slip.now) out.old out.new }
{
    put_head(slip, out);
    put(out, 23, &[terms.side]);
    put(out, 24, &slip.shares.to_be_bytes());
    put(out, 28, &terms.stock);
    put(out, 34, &slip.price.to_be_bytes());
    put(out, 38, &terms.time.to_be_bytes());
    put(out, 42, &terms.firm);
    put(out, 46, b" ");
    put(out, 47, &slip.number.to_be_bytes());
    put(out, 55, &[terms.capacity]);
    put(out, 56, b" ");
    put(out, 57, &terms.minimum.to_be_bytes());
    put(out, 61, b" ");
    put(out, 62, &[u8::from(slip.letter)]);
}

#[tactic(auto, unfolding(crate::specs::Answers::head_fields, crate::specs::Answers::order_fields, crate::specs::Answers::accepted_fields))]
fn put_accepted(slip: &Slip, out: &mut [u8])
    requires { message_size accepted_fields ≤ length out.old }
    ensures { Begun (message_size accepted_fields) (message (kind_byte slip.now.kind) accepted_fields slip.now) out.old out.new }
{
    let terms = ShownTerms::from(&slip.terms);
    put_order(slip, &terms, out);
    put(out, 63, b"        ");
    put(out, 71, &[terms.style]);
    put(out, 72, &[terms.peg]);
    put(out, 73, b" ");
    put(out, 74, &[0; 4]);
    put(out, 78, &[terms.grade]);
    put(out, 79, &[0; 4]);
    put(out, 83, &[terms.lots]);
}

#[tactic(auto, unfolding(crate::specs::Answers::head_fields, crate::specs::Answers::order_fields, crate::specs::Answers::replaced_fields))]
fn put_replaced(slip: &Slip, out: &mut [u8])
    requires { message_size replaced_fields ≤ length out.old }
    ensures { Begun (message_size replaced_fields) (message (kind_byte slip.now.kind) replaced_fields slip.now) out.old out.new }
{
    let terms = ShownTerms::from(&slip.terms);
    put_order(slip, &terms, out);
    put(out, 63, &slip.old.token);
    put(out, 77, b"        ");
    put(out, 85, &[terms.style]);
    put(out, 86, &[terms.peg]);
    put(out, 87, b" ");
    put(out, 88, &[0; 4]);
    put(out, 92, b" ");
    put(out, 93, &[0; 4]);
    put(out, 97, &[terms.lots]);
}

#[tactic(auto, unfolding(crate::specs::Answers::head_fields, crate::specs::Answers::executed_fields))]
fn put_executed(slip: &Slip, out: &mut [u8])
    requires { message_size executed_fields ≤ length out.old }
    ensures { Begun (message_size executed_fields) (message (kind_byte slip.now.kind) executed_fields slip.now) out.old out.new }
{
    put_head(slip, out);
    put(out, 23, &slip.shares.to_be_bytes());
    put(out, 27, &slip.price.to_be_bytes());
    put(out, 31, &[u8::from(slip.letter)]);
    put(out, 32, &slip.match_number.to_be_bytes());
}

#[tactic(auto, unfolding(crate::specs::Answers::head_fields, crate::specs::Answers::cancelled_fields))]
fn put_cancelled(slip: &Slip, out: &mut [u8])
    requires { message_size cancelled_fields ≤ length out.old }
    ensures { Begun (message_size cancelled_fields) (message (kind_byte slip.now.kind) cancelled_fields slip.now) out.old out.new }
{
    put_head(slip, out);
    put(out, 23, &slip.shares.to_be_bytes());
    put(out, 27, &[u8::from(slip.letter)]);
}

#[tactic(auto, unfolding(crate::specs::Answers::head_fields, crate::specs::Answers::rejected_fields))]
fn put_rejected(slip: &Slip, out: &mut [u8])
    requires { message_size rejected_fields ≤ length out.old }
    ensures { Begun (message_size rejected_fields) (message (kind_byte slip.now.kind) rejected_fields slip.now) out.old out.new }
{
    put_head(slip, out);
    put(out, 23, &[u8::from(slip.letter)]);
}

impl Message for Slip {
    ghost size = { slip_size };

    ghost bytes = { slip_bytes };

    #[tactic(auto, unfolding(crate::specs::Answers::head_fields, crate::specs::Answers::order_fields, crate::specs::Answers::accepted_fields, crate::specs::Answers::replaced_fields, crate::specs::Answers::executed_fields, crate::specs::Answers::cancelled_fields, crate::specs::Answers::rejected_fields))]
    fn size(&self) -> usize {
        match self.kind {
            SlipKind::Accepted => 84,
            SlipKind::Replaced => 98,
            SlipKind::Executed => 40,
            SlipKind::Cancelled => 28,
            SlipKind::CancelRejected => 23,
            SlipKind::Rejected => 24,
        }
    }

    #[tactic(auto, unfolding(crate::specs::Answers::head_fields))]
    fn put(&self, out: &mut [u8]) {
        match self.kind {
            SlipKind::Accepted => put_accepted(self, out),
            SlipKind::Replaced => put_replaced(self, out),
            SlipKind::Executed => put_executed(self, out),
            SlipKind::Cancelled => put_cancelled(self, out),
            SlipKind::CancelRejected => put_head(self, out),
            SlipKind::Rejected => put_rejected(self, out),
        }
    }
}

// Writes a slip's message to the front of the host's buffer, and answers its length. A buffer that is too short is left as it was.
pub fn write_slip(slip: &Slip, out: &mut [u8]) -> Result<usize, WriteRefusal>
    ensures { Writes (slip_size slip.now) (slip_bytes slip.now) out.old out.new result }
{
    write_message(slip, out)
}
