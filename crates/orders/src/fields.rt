// The coded fields of an order, one variant for each lawful value, its fixed texts, and the price that is no limit. Where a message may leave a value out by a space, the space is one of the field's own
// values, and so a variant and no `Option`: an order that is written again restores its bytes.

// The name that a client gives to an order.
pub type Token = [u8; 14];

// A stock's symbol.
pub type Stock = [u8; 6];

// The market participant that sent an order.
pub type Firm = [u8; 4];

// The price of an order that has no limit: a rule of the format, which has this number on the wire. An `Option` would have two values for one frame, `None` and the number itself.
pub const NO_LIMIT: i32 = 2147483647;

// Which way an order goes: all but `Buy` are sells.
#[derive(Clone, Copy, PartialEq, Eq, Debug)]
pub enum Side {
    Buy,
    Sell,
    SellShort,
    SellShortExempt,
}

// For whom an order is sent: for a customer, or for the broker's own account.
#[derive(Clone, Copy, PartialEq, Eq, Debug)]
pub enum Capacity {
    Agency,
    Principal,
}

// Which parties an order bars. `AgencyOnly` bars principals, `NoSelf` the same client, `NotFive` source category 5.
#[derive(Clone, Copy, PartialEq, Eq, Debug)]
pub enum CrossStyle {
    All,
    AgencyOnly,
    NoSelf,
    AgencyNoSelf,
    AllNotFive,
    AgencyNotFive,
    NoSelfNotFive,
    AgencyNoSelfNotFive,
}

// What an order's standing price follows: the midpoint of the quote, its own side of the quote, or only its limit.
#[derive(Clone, Copy, PartialEq, Eq, Debug)]
pub enum Peg {
    Midpoint,
    Unpegged,
    Primary,
}

// How far from the midpoint a midpoint order may trade. Unstated means up to the limit.
#[derive(Clone, Copy, PartialEq, Eq, Debug)]
pub enum Constraint {
    Unstated,
    FillToLimit,
    FillToMidpoint,
}

// What becomes of the minimum quantity once fewer shares are left. Not stated means that it is dropped.
#[derive(Clone, Copy, PartialEq, Eq, Debug)]
pub enum LeavesMode {
    NotStated,
    DropMinimum,
    LowerMinimum,
    CancelRest,
}

// How long an order stays: what does not trade at once is cancelled, or rests until the close.
#[derive(Clone, Copy, PartialEq, Eq, Debug)]
pub enum TimeInForce {
    Immediate,
    MarketHours,
}

// Whether an order trades in multiples of 100 shares only.
#[derive(Clone, Copy, PartialEq, Eq, Debug)]
pub enum Lots {
    RoundOnly,
    AnyLot,
}

// Which conditional indications an order invites: none, all, or those of a score from this one up.
#[derive(Clone, Copy, PartialEq, Eq, Debug)]
pub enum InviteGrade {
    Nobody,
    Anyone,
    FromMedium,
    FromHigh,
    HouseOnly,
}

// What an order states beside its token, its shares and its price. A constraint may stand beside any peg here: an order that is replaced keeps its constraint, whatever the new peg.
#[derive(Clone, Copy, PartialEq, Eq, Debug)]
pub struct Terms {
    pub side: Side,
    pub stock: Stock,
    pub time: TimeInForce,
    pub firm: Firm,
    pub capacity: Capacity,
    pub minimum: u32,
    pub constraint: Constraint,
    pub leaves: LeavesMode,
    pub style: CrossStyle,
    pub peg: Peg,
    pub grade: InviteGrade,
    pub lots: Lots,
}
