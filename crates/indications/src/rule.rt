// The entries computed from the rule, for the generator.
ghost use Rattle.std.specs.Prelude.{◌&&◌, ◌||◌, cond, ◌≡◌, ◌<◌};
ghost use Rattle.rules.specs.LampTable.{has_bit, lamp_entry};

// In the paper's numbers.
#[derive(Clone, Copy)]
enum CirculationLamp {
    Dark = 0,
    Vns = 1,
    Cvt = 2,
    VnsFlashing = 3,
    CvtFlashing = 4,
}

#[derive(Clone, Copy)]
enum TronconLamp {
    None = 0,
    White = 1,
    Red = 2,
}

fn circulation(fault3: bool, flashing: bool, cvt: bool) -> u8
    ensures { result ≡ cond fault3 0 (cond flashing (cond cvt 3 4) (cond cvt 2 1)) }
{
    let shown = match (fault3, flashing, cvt) {
        (true, _, _) => CirculationLamp::Dark,
        (false, true, true) => CirculationLamp::VnsFlashing,
        (false, true, false) => CirculationLamp::CvtFlashing,
        (false, false, true) => CirculationLamp::Cvt,
        (false, false, false) => CirculationLamp::Vns,
    };
    shown as u8
}

fn troncon(commands: bool, fault1: bool, occupied: bool) -> u8
    ensures { result ≡ cond commands (cond (fault1 || occupied) 2 1) 0 }
{
    let shown = if !commands {
        TronconLamp::None
    } else if fault1 || occupied {
        TronconLamp::Red
    } else {
        TronconLamp::White
    };
    shown as u8
}

// Whether the index has what adds that much.
fn has_bit(weight: u8, index: u8) -> bool
    requires { 0 < weight }
    ensures { result ≡ has_bit weight index }
{
    index / weight % 2 == 1
}

// The entry at an index, by the rule.
#[tactic(auto, using(rules::proofs::LampTable::at_most_4, rules::proofs::LampTable::at_most_2, crate::proofs::rule::Laws::entry_parts))]
pub fn entry_by_rule(index: u8) -> u8
    ensures { result ≡ lamp_entry index }
{
    let flashing = has_bit(1, index) && has_bit(4, index);
    let shown = circulation(has_bit(16, index), flashing, has_bit(2, index));
    let part = troncon(has_bit(64, index), has_bit(8, index), has_bit(32, index));
    shown + 5 * part + 15 * u8::from(has_bit(128, index))
}
