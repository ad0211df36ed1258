// The table's ruling on a step, a row of the table at a time: its first check that fails, or what the step does.
ghost use Rattle.std.specs.Prelude.{◌≡◌};
ghost use Rattle.rules.specs.Table.{keeping};

use rules::{Effect, Movement, Site};
use section::{Post, Refusal, Said};

// What the step does, or its refusal.
pub type Ruling = Result<Effect, Refusal>;

// A step that changes only its post's record.
pub fn keeping(e: Site, own: Post) -> Effect
    ensures { result ≡ keeping e own }
{
    Effect {
        own,
        walk: e.walk,
        cvt: e.cvt,
        train: Movement::Stays,
        said: Said::Nothing,
    }
}
