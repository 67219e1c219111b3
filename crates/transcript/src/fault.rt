//! The player's fault, which holds the fault of the script or the refusal of the bridge.
ghost use Rattle.transcript.specs.Endings.{fault_text};
ghost use Rattle.transcript.specs.Faults.{of_script, of_refused, of_plan, of_edge, placed, reading_layer, fault_layer, fault_number, refused_number, layer_name};
ghost use Rattle.std.specs.Prelude.{◌≡◌, Some};

use axi::plan::PlanRefusal;
use axi::wires::Refusal;
use std::fmt;
use words::fault::{Fault, Layer as ScriptLayer, Wrong};

// The layers of a script's reader and the bridge: the reader knows of no bridge.
/// The part of the player that refuses.
#[derive(Clone, Copy, Debug, PartialEq, Eq)]
pub enum Layer {
    Words,
    Sections,
    Bridge,
}

impl From<ScriptLayer> for Layer {
    ghost from_gives = { λ s l. l ≡ reading_layer s };

    fn from(layer: ScriptLayer) -> Layer {
        match layer {
            ScriptLayer::Words => Layer::Words,
            ScriptLayer::Sections => Layer::Sections,
        }
    }
}

/// The word that stands for the layer in a fault line.
impl fmt::Display for Layer {
    ghost output = { λ l. Some (layer_name l) };

    fn fmt<W: fmt::Write>(&self, f: &mut fmt::Formatter<W>) -> fmt::Result {
        f.write_str(match self {
            Layer::Words => "words",
            Layer::Sections => "sections",
            Layer::Bridge => "bridge",
        })
    }
}

/// What the bridge refuses.
#[derive(Clone, Copy, Debug, PartialEq, Eq)]
pub enum Refused {
    /// There is no such plan.
    Plan(PlanRefusal),
    /// A field of an edge is too large.
    Edge(Refusal),
}

impl From<Refused> for u8 {
    ghost from_gives = { λ r n. n ≡ refused_number r };

    /// The number of the refusal.
    fn from(refused: Refused) -> u8 {
        match refused {
            Refused::Plan(refusal) => u8::from(refusal),
            Refused::Edge(refusal) => u8::from(refusal),
        }
    }
}

/// What ends the playing of a script early.
#[derive(Clone, Copy, Debug, PartialEq, Eq)]
pub enum Cause {
    /// The script is refused.
    Script(Wrong),
    /// The bridge refuses.
    Bridge(Refused),
}

// As `words::fault::Fault` with another cause. A type of its own: conversions and methods stand in the crate of a type.
/// Why a script is not played to its end: the cause, the line from 1, and the place from 0.
#[derive(Clone, Copy, Debug, PartialEq, Eq)]
pub struct PlayerFault {
    pub cause: Cause,
    pub line: usize,
    pub place: usize,
}

impl From<Fault> for PlayerFault {
    ghost from_gives = { λ f p. p ≡ of_script f };

    fn from(fault: Fault) -> PlayerFault {
        PlayerFault {
            cause: Cause::Script(fault.wrong),
            line: fault.line,
            place: fault.place,
        }
    }
}

/// A refusal of the bridge stands at line 1, place 0 until it is placed.
impl From<Refused> for PlayerFault {
    ghost from_gives = { λ r p. p ≡ of_refused r };

    fn from(refused: Refused) -> PlayerFault {
        PlayerFault {
            cause: Cause::Bridge(refused),
            line: 1,
            place: 0,
        }
    }
}

impl From<PlanRefusal> for PlayerFault {
    ghost from_gives = { λ e p. p ≡ of_plan e };

    fn from(refusal: PlanRefusal) -> PlayerFault {
        PlayerFault::from(Refused::Plan(refusal))
    }
}

impl From<Refusal> for PlayerFault {
    ghost from_gives = { λ e p. p ≡ of_edge e };

    fn from(refusal: Refusal) -> PlayerFault {
        PlayerFault::from(Refused::Edge(refusal))
    }
}

impl PlayerFault {
    /// The same fault at this line and place.
    pub fn at(self, line: usize, place: usize) -> PlayerFault
        ensures { result ≡ placed self line place }
    {
        PlayerFault {
            line,
            place,
            ..self
        }
    }

    /// The part of the player that refuses.
    pub fn layer(self) -> Layer
        ensures { result ≡ fault_layer self }
    {
        match self.cause {
            Cause::Script(wrong) => Layer::from(wrong.layer()),
            Cause::Bridge(_) => Layer::Bridge,
        }
    }

    /// The number of the fault.
    pub fn number(self) -> u8
        ensures { result ≡ fault_number self }
    {
        match self.cause {
            Cause::Script(wrong) => u8::from(wrong),
            Cause::Bridge(refused) => u8::from(refused),
        }
    }
}

/// The layer, and the number, line and place in decimal.
impl fmt::Display for PlayerFault {
    ghost output = { λ p. Some (fault_text p) };

    fn fmt<W: fmt::Write>(&self, f: &mut fmt::Formatter<W>) -> fmt::Result {
        let layer = self.layer();
        let number = self.number();
        let PlayerFault { line, place, .. } = *self;
        write!(f, "fault {layer} {number} {line} {place}")
    }
}
