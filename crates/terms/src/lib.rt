// The small types that commands, replies and machines share, and the refusals.
#![tactic(auto)]

ghost use Rattle.std.specs.Prelude.{◌≡◌};
ghost use Rattle.terms.specs.Refusals.{number_of};
ghost use Rattle.terms.specs.Fields.{system, unit_of, software_of, software_code, coded, units_code, units_of, function_code, function_of, function_limit, tag_of, tag_letters, tag_value};

pub mod address;
pub mod word;

// A kind of machine, by its name.
#[derive(Clone, Copy, Debug, PartialEq, Eq)]
pub enum KindName {
    Four,
    Twelve,
    Feeder,
}

// What a machine's load cells count: tenths of grams, or grams.
#[derive(Clone, Copy, Debug, PartialEq, Eq)]
pub enum Unit {
    Tenths,
    Grams,
}

impl Unit {
    // The system byte of a reply. In the settings reply it tells the change mark too.
    pub fn system(self, mark: bool) -> u8
        ensures { result ≡ system self mark }
    {
        let plain = match self {
            Unit::Tenths => 2,
            Unit::Grams => 9,
        };
        if mark { plain + 1 } else { plain }
    }
}

// What a system byte with the change mark down tells.
impl TryFrom<u8> for Unit {
    type Error = UnknownCode;

    ghost try_from_gives = { λ code r. r ≡ coded code (unit_of code) };

    fn try_from(code: u8) -> Result<Unit, UnknownCode> {
        match code {
            2 => Ok(Unit::Tenths),
            9 => Ok(Unit::Grams),
            _ => Err(UnknownCode(code)),
        }
    }
}

// The software types, by their codes.
#[derive(Clone, Copy, Debug, PartialEq, Eq)]
pub enum Software {
    Four = 4,
    Twelve = 12,
}

impl TryFrom<u8> for Software {
    type Error = UnknownCode;

    ghost try_from_gives = { λ code r. r ≡ coded code (software_of code) };

    fn try_from(code: u8) -> Result<Software, UnknownCode> {
        match code {
            4 => Ok(Software::Four),
            12 => Ok(Software::Twelve),
            _ => Err(UnknownCode(code)),
        }
    }
}

impl From<Software> for u8 {
    ghost from_gives = { λ software code. code ≡ software_code software };

    fn from(software: Software) -> u8 {
        software as u8
    }
}

// The units in which a machine's display shows weights, by their codes.
#[derive(Clone, Copy, Debug, PartialEq, Eq)]
pub enum WeightUnits {
    Pounds = 0,
    Ounces = 1,
    WholeGrams = 2,
    Kilograms = 4,
}

// A byte that is no code of what it should name.
#[derive(Clone, Copy, Debug, PartialEq, Eq)]
pub struct UnknownCode(pub u8);

impl TryFrom<u8> for WeightUnits {
    type Error = UnknownCode;

    ghost try_from_gives = { λ code r. r ≡ coded code (units_of code) };

    fn try_from(code: u8) -> Result<WeightUnits, UnknownCode> {
        match code {
            0 => Ok(WeightUnits::Pounds),
            1 => Ok(WeightUnits::Ounces),
            2 => Ok(WeightUnits::WholeGrams),
            4 => Ok(WeightUnits::Kilograms),
            _ => Err(UnknownCode(code)),
        }
    }
}

impl From<WeightUnits> for u8 {
    ghost from_gives = { λ units code. code ≡ units_code units };

    fn from(units: WeightUnits) -> u8 {
        units as u8
    }
}

// The two functions whose values can be set, by their codes. Those are packed decimals:
// a machine's keypad shows 82 as *52 and 130 as *82.
#[derive(Clone, Copy, Debug, PartialEq, Eq)]
pub enum Function {
    F82 = 82,
    F130 = 130,
}

impl TryFrom<u8> for Function {
    type Error = UnknownCode;

    ghost try_from_gives = { λ code r. r ≡ coded code (function_of code) };

    fn try_from(code: u8) -> Result<Function, UnknownCode> {
        match code {
            82 => Ok(Function::F82),
            130 => Ok(Function::F130),
            _ => Err(UnknownCode(code)),
        }
    }
}

impl From<Function> for u8 {
    ghost from_gives = { λ function code. code ≡ function_code function };

    fn from(function: Function) -> u8 {
        function as u8
    }
}

impl Function {
    // The greatest value that the function takes.
    pub fn limit(self) -> u8
        ensures { result ≡ function_limit self }
    {
        match self {
            Function::F82 => 1,
            Function::F130 => 12,
        }
    }
}

// What a tag command sets, and its new value.
#[derive(Clone, Copy, Debug, PartialEq, Eq)]
pub enum Tag {
    Recipe(u16),
    WorkOrder(u32),
    Operator(u16),
}

// Why letters and a value make no tag: other letters, or a value above the tag's greatest.
#[derive(Clone, Copy, Debug, PartialEq, Eq)]
pub enum TagFault {
    Letters,
    Value,
}

impl Tag {
    // The tag that two letters name, with a value in its range.
    pub fn new(letters: &[u8], value: u32) -> Result<Tag, TagFault>
        ensures { result ≡ tag_of letters.now value }
    {
        match letters {
            b"RC" if value <= 65_535 => Ok(Tag::Recipe(value as u16)),
            b"WO" if value <= 999_999 => Ok(Tag::WorkOrder(value)),
            b"OP" if value <= 999 => Ok(Tag::Operator(value as u16)),
            b"RC" | b"WO" | b"OP" => Err(TagFault::Value),
            _ => Err(TagFault::Letters),
        }
    }

    pub fn letters(self) -> [u8; 2]
        ensures { result ≡ tag_letters self }
    {
        match self {
            Tag::Recipe(_) => *b"RC",
            Tag::WorkOrder(_) => *b"WO",
            Tag::Operator(_) => *b"OP",
        }
    }

    pub fn value(self) -> u32
        ensures { result ≡ tag_value self }
    {
        match self {
            Tag::Recipe(value) | Tag::Operator(value) => u32::from(value),
            Tag::WorkOrder(value) => value,
        }
    }
}

// A row of a machine's settings: the type of its material and its setting.
#[derive(Clone, Copy, Debug, Default, PartialEq, Eq)]
pub struct Row {
    pub material: u8,
    pub setting: u16,
}

// What a settings command sets and a settings reply shows: the twelve rows, as `R` holds
// them, the recipe, the operator and the work order.
#[derive(Clone, Copy, Debug, PartialEq, Eq)]
pub struct Sheet<R> {
    pub rows: R,
    pub recipe: u16,
    pub operator: u16,
    pub order: u32,
}

impl<R: Drop> Sheet<R> {
    // The same with other rows, as with those that a part of a burst says.
    pub fn with_rows<S>(self, rows: S) -> Sheet<S>
        ensures { result ≡ record { rows = rows; recipe = self.recipe; operator = self.operator; order = self.order } }
    {
        Sheet {
            rows,
            recipe: self.recipe,
            operator: self.operator,
            order: self.order,
        }
    }
}

// What a machine counts: the total of each place, its batches, and the flags.
#[derive(Clone, Copy, Debug, PartialEq, Eq)]
pub struct Counts {
    pub totals: [u32; 12],
    pub cycles: u16,
    pub flags: u16,
}

// Why a call is refused that its caller could have made rightly, by the refusal's number.
#[derive(Clone, Copy, Debug, PartialEq, Eq)]
pub enum Refusal {
    // an address outside 1 to 254
    NoAddress = 2,
    // data out of its range
    BadData = 4,
    // no machine with that address
    NoMachine = 8,
    // not one amount for each component
    WrongCount = 9,
    // an amount above 1,000,000
    TooLarge = 10,
}

impl Refusal {
    pub fn number(self) -> u8
        ensures { result ≡ number_of self }
    {
        self as u8
    }
}
