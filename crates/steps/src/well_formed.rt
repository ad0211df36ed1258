// Whether eight bytes say a step: every test of the steps in documents 01 and 02.
ghost use Rattle.std.specs.Prelude.{◌≡◌, ◌&&◌, ◌/◌, ◌%◌, ◌^◌, ◌≤◌, cond, eqb, leb};
ghost use Rattle.section.specs.Numbers.{last_kind};
ghost use Rattle.section.specs.Step.{fault_well_formed, number_well_formed, place_well_formed, well_formed};

use section::{LARGEST_TRAIN, LAST_FAULT, STEP_LENGTH, kinds, le16_of};

// A set of kinds: bit k for kind k.
type Kinds = u32;

const ALL_KINDS: Kinds = 0xFFFF_FFFF;

const WITH_FAULT: Kinds = (1 << kinds::FAULT_ON) + (1 << kinds::FAULT_OFF);

const FOR_A_TRAIN: Kinds = (1 << kinds::START)
    + (1 << kinds::PASS)
    + (1 << kinds::LEAVE)
    + (1 << kinds::CAUTION);

// A field that not every kind has: its largest value, the kinds in which it may be 0 and those in which it may have another value.
#[derive(Clone, Copy)]
struct Field {
    largest: u16,
    zero: Kinds,
    other: Kinds,
}

const FAULT: Field = Field {
    largest: LAST_FAULT as u16,
    zero: ALL_KINDS - WITH_FAULT,
    other: WITH_FAULT,
};

const NUMBER: Field = Field {
    largest: LARGEST_TRAIN,
    zero: ALL_KINDS - FOR_A_TRAIN,
    other: FOR_A_TRAIN + (1 << kinds::RELEASE),
};

impl Field {
    // The value is held against the largest, and whether it is 0 chooses a set of kinds. No jump depends on the kind, which would slow down the test
    // of a day's steps.
    fn fits(self, kind: u8, value: u16) -> bool
        requires { kind ≤ last_kind }
        ensures { result ≡ (leb value self.largest && eqb ((cond (eqb value 0) self.zero self.other) / 2 ^ kind % 2) 1) }
    {
        let kinds = if value == 0 { self.zero } else { self.other };
        value <= self.largest && (kinds >> kind) & 1 == 1
    }
}

fn fault_well_formed(kind: u8, fault: u8) -> bool
    requires { kind ≤ last_kind }
    ensures { result ≡ fault_well_formed kind fault }
{
    FAULT.fits(kind, u16::from(fault))
}

fn number_well_formed(kind: u8, number: u16) -> bool
    requires { kind ≤ last_kind }
    ensures { result ≡ number_well_formed kind number }
{
    NUMBER.fits(kind, number)
}

#[tactic(auto, unfolding(section::specs::Step::place_well_formed, section::specs::Step::track_well_formed, section::specs::Bytes::within))]
fn place_well_formed(n: u8, kind: u8, track: u8, post: u8) -> bool
    ensures { result ≡ place_well_formed n kind track post }
{
    (1..=kinds::LAST).contains(&kind) && track < 2 && post < n
}

// Whether the bytes say a step on a line of n posts. (Bytes by index: with a slice pattern the test took 7.3 nanoseconds in place of 6.3.)
#[tactic(auto, unfolding(section::specs::Step::place_well_formed, section::specs::Step::fields_well_formed, section::specs::Step::well_formed, section::specs::Bytes::within))]
pub fn is_well_formed(n: u8, s: &[u8]) -> bool
    ensures { result ≡ well_formed n s.now }
{
    s.len() == STEP_LENGTH
        && place_well_formed(n, s[0], s[1], s[2])
        && fault_well_formed(s[0], s[3])
        && number_well_formed(s[0], le16_of(s[4], s[5]))
        && le16_of(s[6], s[7]) == 0
}
