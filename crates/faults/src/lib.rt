// The faults of a hearing, in three layers: of the burst, of the message in it, and of the
// account that it is for. Each holds the one below.
#![tactic(auto)]

ghost use Rattle.std.specs.Prelude.{◌≡◌};
ghost use Rattle.faults.specs.Faults.{fault_number, fault_byte};
ghost use Rattle.faults.specs.declared.AccountFault.TheVariants.{Message};
ghost use Rattle.faults.specs.declared.MessageFault.TheVariants.{Burst};

// What came over the line is no sound burst.
#[derive(Clone, Copy, Debug, PartialEq, Eq)]
pub enum BurstFault {
    // The line gave nothing.
    Nothing,
    // Fewer than three bytes; their number is given.
    Short { length: usize },
    // A wrong sum; the last byte is given.
    Unsound { at: usize },
}

// A sound burst is not the reply to the question.
#[derive(Clone, Copy, Debug, PartialEq, Eq)]
pub enum MessageFault {
    Burst(BurstFault),
    // It comes from another address.
    OtherAddress,
    // The machine says NAK.
    Nak,
    // It has another code than a reply to this question.
    OtherCode,
    // A wrong length, which is given, or a field outside its range, whose first byte is given.
    Malformed { at: usize },
}

// The totals of a reply cannot be booked.
#[derive(Clone, Copy, Debug, PartialEq, Eq)]
pub enum AccountFault {
    Message(MessageFault),
    // A late reply: a place would add 2,147,483,648 or more; its total's first byte is given.
    Late { at: usize },
    // A sum would pass its limit; the first byte of its total is given.
    Full { at: usize },
}

impl From<BurstFault> for MessageFault {
    ghost from_gives = { λ f r. r ≡ Burst f };

    fn from(fault: BurstFault) -> MessageFault {
        MessageFault::Burst(fault)
    }
}

impl From<MessageFault> for AccountFault {
    ghost from_gives = { λ f r. r ≡ Message f };

    fn from(fault: MessageFault) -> AccountFault {
        AccountFault::Message(fault)
    }
}

impl AccountFault {
    pub fn number(self) -> u8
        ensures { result ≡ fault_number self }
    {
        match self {
            AccountFault::Message(MessageFault::Burst(BurstFault::Nothing)) => 21,
            AccountFault::Message(MessageFault::Burst(BurstFault::Short { .. })) => 22,
            AccountFault::Message(MessageFault::Burst(BurstFault::Unsound { .. })) => 23,
            AccountFault::Message(MessageFault::OtherAddress) => 31,
            AccountFault::Message(MessageFault::Nak) => 32,
            AccountFault::Message(MessageFault::OtherCode) => 33,
            AccountFault::Message(MessageFault::Malformed { .. }) => 34,
            AccountFault::Late { .. } => 24,
            AccountFault::Full { .. } => 41,
        }
    }

    // The byte of the burst that it names, counted from 0.
    pub fn byte(self) -> usize
        ensures { result ≡ fault_byte self }
    {
        match self {
            AccountFault::Message(MessageFault::Burst(BurstFault::Nothing)) => 0,
            AccountFault::Message(MessageFault::Burst(BurstFault::Short { length })) => length,
            AccountFault::Message(MessageFault::Burst(BurstFault::Unsound { at })) => at,
            AccountFault::Message(MessageFault::OtherAddress) => 0,
            AccountFault::Message(MessageFault::Nak) => 2,
            AccountFault::Message(MessageFault::OtherCode) => 1,
            AccountFault::Message(MessageFault::Malformed { at }) => at,
            AccountFault::Late { at } => at,
            AccountFault::Full { at } => at,
        }
    }
}
