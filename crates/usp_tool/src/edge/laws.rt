//! What follows of the work at a door. Each is a theorem for the crates above.

ghost use Rattle.std.specs.Prelude.{◌≡◌, ◌≢◌, ◌<◌, ◌*◌, ℕ, List, Some};
ghost use Rattle.usp_conf.specs.Values.{ConfValue};
ghost use Rattle.usp_edge.specs.declared.end.End.TheVariants as ending;
ghost use Rattle.usp_edge.specs.declared.limits.TheConstants.{MAX_HEADS};
ghost use Rattle.usp_tool.specs.Edge.AtDoor.{AtDoor, Post, Visited, gone_line};
ghost use Rattle.usp_tool.specs.Edge.Sums.{DidSession, HasNoFault, Sum};

use usp_edge::Nonces;

/// A connection ends by a fault of its line only where the line that is given back has counted one.
pub fn counts_faults_of_ends<N: Nonces>()
    ensures read { (conf : ConfValue) (old new : Post N) (visited : Visited N.gains conf old new)
        → visited.ends ≡ ending.ReadFault → 0 < (gone_line visited.line).read_faults }
    ensures put { (conf : ConfValue) (old new : Post N) (visited : Visited N.gains conf old new)
        → visited.ends ≡ ending.WriteFault → 0 < (gone_line visited.line).put_faults }
{}

/// A connection whose bytes are told, whose line has no fault and for which there was memory is one session over all
/// its bytes.
pub fn serves_whole_sessions<N: Nonces>()
    ensures { (conf : ConfValue) (old new : Post N) (visited : Visited N.gains conf old new)
        (bytes : List ℕ) → visited.line.around.left ≡ Some bytes
        → HasNoFault (gone_line visited.line) → visited.ends ≢ ending.NoMemory
        → DidSession N.gains conf bytes (gone_line visited.line).told old.met new.met visited.ends }
{}

/// The nonces gain exactly the calls that the notes show, in their order: those of one connection, and those of all.
pub fn makes_the_calls_of_its_notes<N: Nonces>()
    ensures one { (conf : ConfValue) (old new : Post N) → Visited N.gains conf old new
        → Sum N.gains MAX_HEADS old.met new.met }
    ensures all { (conf : ConfValue) (count : ℕ) (old new : Post N) → AtDoor N.gains conf count old new
        → Sum N.gains (MAX_HEADS * count) old.met new.met }
{}
