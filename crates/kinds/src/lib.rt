// The kinds of machine. A kind is a type without values of interest; what it
// tells of itself never changes, so the machine above is written once for all.
#![tactic(auto)]

ghost use Rattle.std.specs.Prelude.{◌≡◌, ℕ, List, refl};
ghost use Rattle.kinds.specs.Kinds.{KindFacts, place_told, feeder_code, known_code, four_facts, twelve_facts, feeder_facts};

// What a kind tells: what is one value as a constant, the rest by a function.
pub trait Kind {
    // a number, since an `Answer` may show any
    const SOFTWARE: u8;

    const COMPONENTS: usize;

    // The greatest type of a row that holds a setting.
    const MATERIALS: u8;

    const VERSION: [u8; 6];

    ghost SOFTWARE: { ℕ };

    ghost COMPONENTS: { ℕ };

    ghost MATERIALS: { ℕ };

    ghost VERSION: { List ℕ };

    // The facts hold the laws of a kind: its software is 4 or 12, it takes
    // codes 16 and 17, and two components have two places, each from 1 to 12.
    ghost facts: { KindFacts };

    // The place of a component, both counted from 1.
    fn place(component: usize) -> Option<usize>
        ensures { result ≡ place_told facts component };

    // Whether a row holds a setting. The other rows are zero.
    fn holds(row: usize) -> bool
        ensures { result ≡ facts.holds row };

    // Whether the kind takes commands of this code.
    fn takes(code: u8) -> bool
        ensures { result ≡ facts.takes code };

    ghost software_told: { SOFTWARE ≡ facts.software };

    ghost components_told: { COMPONENTS ≡ facts.components };

    ghost materials_told: { MATERIALS ≡ facts.materials };

    ghost version_told: { VERSION ≡ facts.version };
}

// The codes of a feeder: totals, settings, type, version and units.
fn is_of_feeder(code: u8) -> bool
    ensures { result ≡ feeder_code code }
{
    matches!(code, 16 | 17 | 19 | 20 | 49 | 80 | 85)
}

// All twelve codes.
fn is_known(code: u8) -> bool
    ensures { result ≡ known_code code }
{
    is_of_feeder(code) || matches!(code, 70 | 71 | 86 | 88 | 90)
}

// A blender with four-component software.
#[derive(Clone, Copy, Debug, PartialEq, Eq)]
pub struct Four;

impl Kind for Four {
    const SOFTWARE: u8 = 4;

    const COMPONENTS: usize = 4;

    const MATERIALS: u8 = 0;

    const VERSION: [u8; 6] = *b"F10000";

    ghost SOFTWARE = { 4 };

    ghost COMPONENTS = { 4 };

    ghost MATERIALS = { 0 };

    ghost VERSION = { four_facts.version };

    ghost facts = { four_facts };

    ghost software_told = { refl };

    ghost components_told = { refl };

    ghost materials_told = { refl };

    ghost version_told = { refl };

    fn place(component: usize) -> Option<usize> {
        matches!(component, 1..=4).then_some(component)
    }

    fn holds(row: usize) -> bool {
        matches!(row, 1 | 3 | 4)
    }

    fn takes(code: u8) -> bool {
        is_known(code)
    }
}

// A blender with twelve-component software.
#[derive(Clone, Copy, Debug, PartialEq, Eq)]
pub struct Twelve;

impl Kind for Twelve {
    const SOFTWARE: u8 = 12;

    const COMPONENTS: usize = 12;

    const MATERIALS: u8 = 3;

    const VERSION: [u8; 6] = *b"T10000";

    ghost SOFTWARE = { 12 };

    ghost COMPONENTS = { 12 };

    ghost MATERIALS = { 3 };

    ghost VERSION = { twelve_facts.version };

    ghost facts = { twelve_facts };

    ghost software_told = { refl };

    ghost components_told = { refl };

    ghost materials_told = { refl };

    ghost version_told = { refl };

    fn place(component: usize) -> Option<usize> {
        matches!(component, 1..=12).then_some(component)
    }

    fn holds(row: usize) -> bool {
        matches!(row, 1..=12)
    }

    fn takes(code: u8) -> bool {
        is_known(code)
    }
}

// A gravimetric feeder: one component, which stands at place 12.
#[derive(Clone, Copy, Debug, PartialEq, Eq)]
pub struct Feeder;

impl Kind for Feeder {
    const SOFTWARE: u8 = 12;

    const COMPONENTS: usize = 1;

    const MATERIALS: u8 = 0;

    const VERSION: [u8; 6] = *b"M10000";

    ghost SOFTWARE = { 12 };

    ghost COMPONENTS = { 1 };

    ghost MATERIALS = { 0 };

    ghost VERSION = { feeder_facts.version };

    ghost facts = { feeder_facts };

    ghost software_told = { refl };

    ghost components_told = { refl };

    ghost materials_told = { refl };

    ghost version_told = { refl };

    fn place(component: usize) -> Option<usize> {
        (component == 1).then_some(12)
    }

    fn holds(row: usize) -> bool {
        row == 12
    }

    fn takes(code: u8) -> bool {
        is_of_feeder(code)
    }
}
