// The writer of commands.
ghost use Rattle.ubp.specs.Commands.{enter_type, enter_fields, replace_type, replace_fields, cancel_type, cancel_fields};
ghost use Rattle.ubp.specs.Formats.{message, message_size};
ghost use Rattle.ubp.specs.Frames.{encoded, command_size};
ghost use Rattle.ubp.specs.Theorems.{Taken, Told};
ghost use Rattle.ubp.specs.Writing.{Begun, Writes};
ghost use Rattle.std.specs.Prelude.{◌≤◌, length, take};

use crate::message::{Message, write_message};
use crate::put::put;
use crate::refusal::WriteRefusal;
use orders::command::{CancelOrder, Command, ReplaceOrder};
use orders::enter::EnterOrder;

// Each step asks for room for just what it puts, so the sizes differ and no type of buffer can say them for all.
// What is to be traded: the fields from the token to the firm.
fn put_enter_trade(order: &EnterOrder, out: &mut [u8])
    requires { 38 ≤ length out.old }
    ensures { Begun 38 (message enter_type (take 7 enter_fields) order.now) out.old out.new }
{
    let terms = &order.terms;
    put(out, 0, b"o");
    put(out, 1, &order.token);
    put(out, 15, &[u8::from(terms.side)]);
    put(out, 16, &order.shares.to_be_bytes());
    put(out, 20, &terms.stock);
    put(out, 26, &order.price.to_be_bytes());
    put(out, 30, &u32::from(terms.time).to_be_bytes());
    put(out, 34, &terms.firm);
}

// And on which terms: the fields up to the peg.
fn put_enter_terms(order: &EnterOrder, out: &mut [u8])
    requires { 56 ≤ length out.old }
    ensures { Begun 56 (message enter_type (take 18 enter_fields) order.now) out.old out.new }
{
    let terms = &order.terms;
    put_enter_trade(order, out);
    put(out, 38, b" ");
    put(out, 39, &[u8::from(terms.capacity)]);
    put(out, 40, b" ");
    put(out, 41, &terms.minimum.to_be_bytes());
    put(out, 45, b" ");
    put(out, 46, &[u8::from(terms.constraint)]);
    put(out, 47, b" ");
    put(out, 48, &[u8::from(terms.leaves)]);
    put(out, 49, b"     ");
    put(out, 54, &[u8::from(terms.style)]);
    put(out, 55, &[u8::from(terms.peg)]);
}

#[tactic(auto, unfolding(crate::specs::Commands::enter_fields))]
impl Message for EnterOrder {
    ghost size = { λ _. message_size enter_fields };

    ghost bytes = { message enter_type enter_fields };

    fn size(&self) -> usize {
        67
    }

    fn put(&self, out: &mut [u8]) {
        put_enter_terms(self, out);
        put(out, 56, b" ");
        put(out, 57, &[0; 4]);
        put(out, 61, &[u8::from(self.terms.grade)]);
        put(out, 62, &[0; 4]);
        put(out, 66, &[u8::from(self.terms.lots)]);
    }
}

// Which order becomes what: the fields from the tokens to the time in force.
fn put_replace_trade(order: &ReplaceOrder, out: &mut [u8])
    requires { 41 ≤ length out.old }
    ensures { Begun 41 (message replace_type (take 5 replace_fields) order.now) out.old out.new }
{
    put(out, 0, b"u");
    put(out, 1, &order.existing);
    put(out, 15, &order.token);
    put(out, 29, &order.shares.to_be_bytes());
    put(out, 33, &order.price.to_be_bytes());
    put(out, 37, &u32::from(order.time).to_be_bytes());
}

#[tactic(auto, unfolding(crate::specs::Commands::replace_fields))]
impl Message for ReplaceOrder {
    ghost size = { λ _. message_size replace_fields };

    ghost bytes = { message replace_type replace_fields };

    fn size(&self) -> usize {
        60
    }

    fn put(&self, out: &mut [u8]) {
        put_replace_trade(self, out);
        put(out, 41, b" ");
        put(out, 42, b" ");
        put(out, 43, &self.minimum.to_be_bytes());
        put(out, 47, &[u8::from(self.style)]);
        put(out, 48, &[u8::from(self.peg)]);
        put(out, 49, b" ");
        put(out, 50, &[0; 4]);
        put(out, 54, b" ");
        put(out, 55, &[0; 4]);
        put(out, 59, &[u8::from(self.lots)]);
    }
}

#[tactic(auto, unfolding(crate::specs::Commands::cancel_fields))]
impl Message for CancelOrder {
    ghost size = { λ _. message_size cancel_fields };

    ghost bytes = { message cancel_type cancel_fields };

    fn size(&self) -> usize {
        19
    }

    fn put(&self, out: &mut [u8]) {
        put(out, 0, b"X");
        put(out, 1, &self.token);
        put(out, 15, &[0; 4]);
    }
}

impl Message for Command {
    ghost size = { command_size };

    ghost bytes = { encoded };

    fn size(&self) -> usize {
        match self {
            Command::Enter(order) => order.size(),
            Command::Replace(order) => order.size(),
            Command::Cancel(order) => order.size(),
        }
    }

    fn put(&self, out: &mut [u8]) {
        match self {
            Command::Enter(order) => order.put(out),
            Command::Replace(order) => order.put(out),
            Command::Cancel(order) => order.put(out),
        }
    }
}

// Writes a command's frame to the front of the host's buffer, and answers its length. A buffer that is too short is left as it was. Any command's frame is one that the reader takes, and it
// is no other command's.
pub fn write(command: &Command, out: &mut [u8]) -> Result<usize, WriteRefusal>
    ensures written { Writes (command_size command.now) (encoded command.now) out.old out.new result }
    ensures taken { Taken command.now }
    ensures told { Told command.now }
{
    write_message(command, out)
}
