//! What follows of the definitions.

ghost use Rattle.std.specs.Prelude.{◌≡◌, ◌⊎◌, ◌↔◌, true, false, [], ◌++◌, List, Option};
ghost use Rattle.arrival_line.specs.declared.arrival.Arrival.{Arrival};
ghost use Rattle.arrival_line.specs.declared.arrival.Message.{Message};
ghost use Rattle.source_model.specs.declared.Kind.{Kind};
ghost use Rattle.arrival_line.specs.Messages.{ends_last, is_open};
ghost use Rattle.arrival_line.specs.Strays.{fits, serves, Serves};

/// An arrival is a stray exactly where it doesn't fit, or an earlier arrival of its product is no stray.
pub fn law_strays()
    ensures { (wanted : List (Option Kind)) (before : List Arrival) (a : Arrival) →
        (serves wanted before a ≡ false)
        ↔ ((fits wanted a ≡ false) ⊎ ((b : Arrival) × Serves wanted before b
        × (b.product ≡ a.product))) }
{}

/// Where the end message was received, the channel holds nothing.
pub fn law_end()
    ensures { (got items : List Message) → ends_last (got ++ items) ≡ true → is_open got ≡ false
        → items ≡ [] }
{}
