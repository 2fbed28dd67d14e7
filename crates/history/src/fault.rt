// Why a history text is not read: the first fault on its first faulty line, or in the whole.
ghost use Rattle.std.specs.Prelude.{◌≡◌};
ghost use Rattle.history.specs.Faults.{fault_number};
ghost use Rattle.history.specs.Steps.Fields.{listed_fault};

use layout::list::ListFault;

#[derive(Clone, Copy, Debug, PartialEq, Eq)]
pub enum Fault {
    // The text is longer than a history may be.
    TooLong,
    // The line is not laid out as its place asks.
    Layout,
    // Something on the line is over a limit.
    Limits,
    // The op, the value or the width does not belong to the kind.
    Misfit,
    // The answer is not one that the op can give.
    BadAnswer,
    // Numbers that have to rise do not.
    NotRising,
}

impl Fault {
    // The number that documents and programs give the fault.
    // Kept: the name says which number it is, and `u8::from(fault)` would not.
    pub fn number(self) -> u8
        ensures { result ≡ fault_number self }
    {
        match self {
            Fault::TooLong => 1,
            Fault::Layout => 2,
            Fault::Limits => 3,
            Fault::Misfit => 4,
            Fault::BadAnswer => 5,
            Fault::NotRising => 6,
        }
    }
}

// What is wrong with a field that is no list as its place asks: the layout, or a limit.
impl From<ListFault> for Fault {
    ghost from_gives = { λ l f. f ≡ listed_fault l };

    fn from(fault: ListFault) -> Fault {
        match fault {
            ListFault::NotList => Fault::Layout,
            ListFault::Over | ListFault::Many => Fault::Limits,
        }
    }
}
