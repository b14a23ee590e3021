//! The channel, under a rule: what was received is a prefix of what was sent, in order, and the end message comes last.
ghost use Rattle.std.specs.Prelude.{◌≡◌, true, [], ◌∷◌, ◌++◌, ⊤};
ghost use Rattle.arrival_line.specs.Line.{traffic};
ghost use Rattle.arrival_line.specs.Messages.{ends_last};

use crate::arrival::{Message, Traffic};
use crossbeam_channel::protocol::{Join, Lesson, Outcome, Protocol, Split};
use crossbeam_channel::{Pass, RuledReceiver, RuledSender};

pub struct Ordered;

impl Protocol<Message, Traffic> for Ordered {
    ghost use Rattle.std.specs.Prelude.{true, []};
    ghost use Rattle.arrival_line.specs.Line.{traffic};
    ghost use Rattle.arrival_line.specs.inside.Line.{InOrder};

    ghost holds = { InOrder };

    ghost first = { traffic true true [] [] };
}

// One pass may send from then on, and the other may receive.
pub struct Roles;

impl Split<Traffic> for Roles {
    ghost use Rattle.std.specs.Prelude.{true, false, []};
    ghost use Rattle.arrival_line.specs.Line.{traffic};

    ghost left = { λ v. traffic true false v.sent [] };

    ghost right = { λ v. traffic false true [] v.got };
}

impl Join<Traffic> for Roles {
    ghost use Rattle.std.specs.Prelude.{true, false, []};
    ghost use Rattle.arrival_line.specs.Line.{traffic};

    ghost both = { λ v w. traffic true true v.sent w.got };

    ghost spent = { traffic false false [] [] };
}

pub struct Sent;

impl Outcome<Message, Traffic> for Sent {
    ghost then = { λ v m w. w ≡ traffic v.sends v.receives (v.sent ++ m ∷ []) v.got };
}

impl Lesson<Message, Traffic> for Sent {
    ghost fact = { λ v items. ⊤ };
}

pub struct Got;

impl Outcome<Message, Traffic> for Got {
    ghost then = { λ v m w. (w ≡ traffic v.sends v.receives v.sent (v.got ++ m ∷ []))
        × (ends_last (v.got ++ m ∷ []) ≡ true) };
}

impl Lesson<Message, Traffic> for Got {
    ghost fact = { λ v items. ⊤ };
}

// What the pass that may do both learns.
pub struct Rest;

impl Outcome<Message, Traffic> for Rest {
    ghost then = { λ v m w. w ≡ traffic v.sends v.receives v.sent (v.got ++ m ∷ []) };
}

impl Lesson<Message, Traffic> for Rest {
    ghost fact = { λ v items. (v.sent ≡ v.got ++ items) × (ends_last v.sent ≡ true) };
}

pub type Sender = RuledSender<Message, Traffic, Ordered>;

pub type Receiver = RuledReceiver<Message, Traffic, Ordered>;

pub type LinePass = Pass<Message, Traffic>;
