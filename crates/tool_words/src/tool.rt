//! The commands of `patchtool`.

ghost use Rattle.std.specs.Prelude.{◌≡◌, ℕ, List, [], ◌∷◌, map, codes, IfSome, IsSomeAnd, string_bytes};
ghost use Rattle.tool_words.specs.Commands.{Tool, tool_words, tool_of};

/// A command of `patchtool`, with the names of the texts that it reads. The layout `-` is the
/// built-in one.
#[derive(Clone, Copy, Debug, PartialEq, Eq)]
pub enum ToolCommand<'a> {
    /// `serial CIRCUIT LAYOUT OUTCOMES`: the circuit is carried out on one thread.
    Serial {
        circuit: &'a str,
        layout: &'a str,
        outcomes: &'a str,
    },
    /// `lower CIRCUIT`: its static products as a product list.
    Lower {
        circuit: &'a str,
    },
    /// `layout CIRCUIT LAYOUT`: whether the layout serves the circuit, and its picture.
    Layout {
        circuit: &'a str,
        layout: &'a str,
    },
    /// `verify CIRCUIT LAYOUT OUTCOMES SCHEDULE`: whether the schedule is legal and complete.
    Verify {
        circuit: &'a str,
        layout: &'a str,
        outcomes: &'a str,
        schedule: &'a str,
    },
    /// `slices CIRCUIT LAYOUT OUTCOMES SCHEDULE`: the schedule's slices, with pictures.
    Slices {
        circuit: &'a str,
        layout: &'a str,
        outcomes: &'a str,
        schedule: &'a str,
    },
    /// `migrate CIRCUIT LAYOUT OUTCOMES SCHEDULE`: the schedule in the latest version.
    Migrate {
        circuit: &'a str,
        layout: &'a str,
        outcomes: &'a str,
        schedule: &'a str,
    },
    /// `layers CIRCUIT`: the least number of layers of commuting products.
    Layers {
        circuit: &'a str,
    },
    /// `least CIRCUIT LAYOUT OUTCOMES`: as `serial`, with least regions.
    Least {
        circuit: &'a str,
        layout: &'a str,
        outcomes: &'a str,
    },
}

/// The command that the words give; None for words that are no command of `patchtool`.
///
/// The words are those after the program's name.
pub fn tool_command(words: &[String]) -> Option<ToolCommand<'_>>
    ensures listed { IfSome result (λ c. map string_bytes words.now ≡ tool_words (tool_of c)) }
    ensures exact { (t : Tool) → map string_bytes words.now ≡ tool_words t
        → IsSomeAnd result (λ c. tool_of c ≡ t) }
{
    match words {
        [name, circuit] => with_circuit(name.as_str(), circuit.as_str()),
        [name, circuit, layout] => with_layout(name.as_str(), circuit.as_str(), layout.as_str()),
        [name, circuit, layout, outcomes] => {
            with_outcomes(
                name.as_str(),
                circuit.as_str(),
                layout.as_str(),
                outcomes.as_str(),
            )
        }
        [name, circuit, layout, outcomes, schedule] => with_schedule(
            name.as_str(),
            circuit.as_str(),
            layout.as_str(),
            outcomes.as_str(),
            schedule.as_str(),
        ),
        _ => None,
    }
}

fn with_circuit<'a>(name: &'a str, circuit: &'a str) -> Option<ToolCommand<'a>>
    ensures listed { IfSome result (λ c. name.now ∷ circuit.now ∷ [] ≡ tool_words (tool_of c)) }
    ensures exact { (t : Tool) → name.now ∷ circuit.now ∷ [] ≡ tool_words t
        → IsSomeAnd result (λ c. tool_of c ≡ t) }
{
    match name {
        "lower" => Some(ToolCommand::Lower { circuit }),
        "layers" => Some(ToolCommand::Layers { circuit }),
        _ => None,
    }
}

fn with_layout<'a>(name: &'a str, circuit: &'a str, layout: &'a str) -> Option<ToolCommand<'a>>
    ensures listed { IfSome result (λ c. name.now ∷ circuit.now ∷ layout.now ∷ []
        ≡ tool_words (tool_of c)) }
    ensures exact { (t : Tool) → name.now ∷ circuit.now ∷ layout.now ∷ [] ≡ tool_words t
        → IsSomeAnd result (λ c. tool_of c ≡ t) }
{
    match name {
        "layout" => Some(ToolCommand::Layout { circuit, layout }),
        _ => None,
    }
}

fn with_outcomes<'a>(
    name: &'a str,
    circuit: &'a str,
    layout: &'a str,
    outcomes: &'a str,
) -> Option<ToolCommand<'a>>
    ensures listed { IfSome result (λ c. name.now ∷ circuit.now ∷ layout.now ∷ outcomes.now ∷ []
        ≡ tool_words (tool_of c)) }
    ensures exact { (t : Tool) → name.now ∷ circuit.now ∷ layout.now ∷ outcomes.now ∷ []
        ≡ tool_words t → IsSomeAnd result (λ c. tool_of c ≡ t) }
{
    match name {
        "serial" => Some(ToolCommand::Serial {
            circuit,
            layout,
            outcomes,
        }),
        "least" => Some(ToolCommand::Least {
            circuit,
            layout,
            outcomes,
        }),
        _ => None,
    }
}

fn with_schedule<'a>(
    name: &'a str,
    circuit: &'a str,
    layout: &'a str,
    outcomes: &'a str,
    schedule: &'a str,
) -> Option<ToolCommand<'a>>
    ensures listed { IfSome result
        (λ c. name.now ∷ circuit.now ∷ layout.now ∷ outcomes.now ∷ schedule.now ∷ []
        ≡ tool_words (tool_of c)) }
    ensures exact { (t : Tool)
        → name.now ∷ circuit.now ∷ layout.now ∷ outcomes.now ∷ schedule.now ∷ [] ≡ tool_words t
        → IsSomeAnd result (λ c. tool_of c ≡ t) }
{
    match name {
        "verify" => Some(ToolCommand::Verify {
            circuit,
            layout,
            outcomes,
            schedule,
        }),
        "slices" => Some(ToolCommand::Slices {
            circuit,
            layout,
            outcomes,
            schedule,
        }),
        "migrate" => Some(ToolCommand::Migrate {
            circuit,
            layout,
            outcomes,
            schedule,
        }),
        _ => None,
    }
}
