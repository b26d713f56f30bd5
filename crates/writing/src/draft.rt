ghost use Rattle.std.specs.Prelude.{◌≡◌, ℕ, ◌+◌, ◌*◌, ◌<◌, ◌≤◌, List, [], ◌∷◌, ◌++◌, length, refl};
ghost use Rattle.std.specs.List.{flat_map};
ghost use Rattle.mlan.specs.Checksum.{sealed};
ghost use Rattle.mlan.specs.Numbers.{two, four};
ghost use Rattle.mlan.specs.Rows.{row_bytes};
ghost use Rattle.writing.specs.Sheets.{sheet_bytes};

use mlan::burst::Burst;
use mlan::checksum::sum_of;
use std::marker::Model;
use terms::{Row, Sheet};

// A burst that is being written, field by field. In a contract it is the list of its bytes. It
// is an array and a length, and no `ArrayVec`, which took a third more work for each reply.
#[derive(Drop)]
pub(crate) struct Draft {
    bytes: [u8; 64],
    len: usize,
}

impl Model for Draft {
    ghost use Rattle.std.specs.Prelude.{◌≡◌, ℕ, ◌≤◌, List, length, take};

    ghost Value = { List ℕ };

    ghost view = { λ d. take d.len d.bytes };

    ghost invariant = { λ d. (d.len ≤ 64) × (length d.bytes ≡ 64) };
}

impl Draft {
    pub(crate) fn new() -> Draft
        ensures { result ≡ [] }
    {
        Draft {
            bytes: [0; 64],
            len: 0,
        }
    }

    pub(crate) fn append(&mut self, part: &[u8])
        requires { length self.old + length part.now ≤ 64 }
        ensures { self.new ≡ self.old ++ part.now }
    {
        let end = self.len + part.len();
        self.bytes[self.len..end].copy_from_slice(part);
        self.len = end;
    }

    pub(crate) fn put<T: Field>(&mut self, field: T)
        requires { length self.old + T.size ≤ 64 }
        ensures { self.new ≡ self.old ++ T.bytes field }
    {
        field.put_into(self);
    }

    // One field behind the other.
    // The length is said beside the bytes, for the room of what follows.
    pub(crate) fn put_all<T: Field + Copy>(&mut self, fields: &[T])
        requires { length self.old + T.size * length fields.now ≤ 64 }
        ensures written { self.new ≡ self.old ++ flat_map T.bytes fields.now }
        ensures len { length self.new ≡ length self.old + T.size * length fields.now }
    {
        for field in fields {
            self.put(*field);
        }
    }

    // The twelve rows, the recipe, the operator and the work order.
    pub(crate) fn put_sheet(&mut self, sheet: &Sheet<[Row; 12]>)
        requires { length self.old + 44 ≤ 64 }
        ensures written { self.new ≡ self.old ++ sheet_bytes sheet.now }
        ensures len { length self.new ≡ length self.old + 44 }
    {
        self.put_all(&sheet.rows);
        self.put(sheet.recipe);
        self.put(sheet.operator);
        self.put(sheet.order);
    }

    // The burst, with the checksum behind what was written.
    pub(crate) fn seal(mut self) -> Burst
        requires { length self < 64 }
        ensures sealed { result ≡ sealed self }
        ensures fits { (1 ≤ length result) × (length result ≤ 64) }
    {
        let check = 255 - sum_of(&self.bytes[..self.len]);
        self.append(&[check]);
        Burst::new(&self.bytes[..self.len]).unwrap()
    }
}

// What a burst holds as so many bytes, whatever its value.
pub(crate) trait Field {
    ghost bytes: { Self → List ℕ };

    ghost size: { ℕ };

    fn put_into(self, draft: &mut Draft)
        requires { length draft.old + size ≤ 64 }
        ensures { draft.new ≡ draft.old ++ bytes self };

    ghost sized: { (x : Self) → length (bytes x) ≡ size };
}

impl Field for u16 {
    ghost bytes = { two };

    ghost size = { 2 };

    ghost sized = { λ x. refl };

    fn put_into(self, draft: &mut Draft) {
        draft.append(&self.to_be_bytes());
    }
}

impl Field for u32 {
    ghost bytes = { four };

    ghost size = { 4 };

    ghost sized = { λ x. refl };

    fn put_into(self, draft: &mut Draft) {
        draft.append(&self.to_be_bytes());
    }
}

impl Field for Row {
    ghost bytes = { row_bytes };

    ghost size = { 3 };

    ghost sized = { λ x. refl };

    fn put_into(self, draft: &mut Draft) {
        let [high, low] = self.setting.to_be_bytes();
        draft.append(&[self.material, high, low]);
    }
}
