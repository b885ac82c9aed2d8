ghost use Rattle.std.specs.Prelude.{List, Option, Bool};
ghost use Rattle.std.specs.Borrow.{ftrue};
ghost use Rattle.b1_model.specs.declared.naming.Opening.{Opening};
ghost use Rattle.b1_rule.specs.Known.{Found, Holding};

use std::marker::Model;

/// What a seat of the table knows. No value of it is made.
pub struct View {
    /// How the bus was opened.
    pub ghost opening: { Opening },
    /// The drivers' parts that the seat has.
    pub ghost parts: { List Holding },
    /// The peer whose lock it has taken, with the part that it found.
    pub ghost named: { Option Found },
    /// Another seat has taken its parts over.
    pub ghost spent: { Bool },
}

impl Model for View {
    ghost also_owns = { λ _. ftrue };
}
