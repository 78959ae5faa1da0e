// A change's own bytes.
ghost use Rattle.std.specs.Prelude.{◌≡◌, ◌<◌, true, [], ◌∷◌, ◌++◌, map, length, IfOk, Ok, OnOk};
ghost use Rattle.std.specs.List.{list_all};
ghost use Rattle.change.specs.Bytes.{number_bytes, add_bytes, counted, change_kind, change_bytes};
ghost use Rattle.change.specs.Reading.{change_of};
ghost use Rattle.change.specs.View.{add_in, add_inside, add_seen, change_by};
ghost use Rattle.change.specs.Viewed.{viewed};
ghost use Rattle.change.specs.WellFormed.{is_add, well_formed};

use crate::add::AddView;
use crate::kind::Kind;
use crate::names::{Line, Name, Sheet};
use crate::span::AddAt;
use crate::view::ChangeView;
use crate::writing::{push_number, push_numbers};
use std::alloc::{AllocError, Global};

fn push_add(out: &mut Vec<u8>, after: Line, before: Line, text: &[u8]) -> Result<(), AllocError>
    requires { length text.now < 256 }
    ensures { OnOk result (out.new.items ≡ out.old.items ++ add_bytes (record { after = after.0; before = before.0; text = text.now })) }
{
    push_number(out, after.0)?;
    push_number(out, before.0)?;
    out.push(text.len() as u8)?;
    out.extend_from_slice(text)?;
    Ok(())
}

// How many adds there are, and these, with their texts from the bytes in which they lie.
fn push_adds(out: &mut Vec<u8>, bytes: &[u8], adds: &[AddAt]) -> Result<(), AllocError>
    requires few { length adds.now < 256 }
    requires inside { list_all (add_inside bytes.now) adds.now ≡ true }
    requires formed { list_all (λ a. is_add (add_in bytes.now a)) adds.now ≡ true }
    ensures { OnOk result (out.new.items ≡ out.old.items ++ counted (λ a. add_bytes (add_in bytes.now a)) adds.now) }
{
    out.push(adds.len() as u8)?;
    for add in adds {
        let start = add.text.start;
        let end = start + add.text.len;
        push_add(out, add.after, add.before, &bytes[start..end])?;
    }
    Ok(())
}

// How many adds there are, and these.
fn push_adds_seen(out: &mut Vec<u8>, adds: &[AddView<'_>]) -> Result<(), AllocError>
    requires few { length adds.now < 256 }
    requires formed { list_all (λ a. is_add (add_seen a)) adds.now ≡ true }
    ensures { OnOk result (out.new.items ≡ out.old.items ++ counted (λ a. add_bytes (add_seen a)) adds.now) }
{
    out.push(adds.len() as u8)?;
    for add in adds {
        push_add(out, add.after, add.before, add.text)?;
    }
    Ok(())
}

// What stands in front of the adds.
fn push_front(out: &mut Vec<u8>, name: Name, sheet: Sheet, needs: &[u32]) -> Result<(), AllocError>
    requires { length needs.now < 256 }
    ensures { OnOk result (out.new.items ≡ out.old.items ++ (change_kind ∷ (number_bytes name.0 ++ (sheet.0 ∷ counted number_bytes needs.now)))) }
{
    out.push(u8::from(Kind::Change))?;
    push_number(out, name.0)?;
    out.push(sheet.0)?;
    push_numbers(out, needs)?;
    Ok(())
}

// The bytes of a change, by its parts; the texts of its adds lie in `texts`.
pub fn bytes_of_parts(
    heap: Global,
    name: Name,
    sheet: Sheet,
    needs: &[u32],
    texts: &[u8],
    adds: &[AddAt],
    kills: &[u32],
) -> Result<Vec<u8>, AllocError>
    requires few { (length needs.now < 256) × (length adds.now < 256) × (length kills.now < 256) }
    requires inside { list_all (add_inside texts.now) adds.now ≡ true }
    requires formed { list_all (λ a. is_add (add_in texts.now a)) adds.now ≡ true }
    ensures { IfOk result (λ v. v.items ≡ change_bytes (record { name = name.0; sheet = sheet.0; needs = needs.now; adds = map (add_in texts.now) adds.now; kills = kills.now })) }
{
    let mut out = Vec::new(heap);
    push_front(&mut out, name, sheet, needs)?;
    push_adds(&mut out, texts, adds)?;
    push_numbers(&mut out, kills)?;
    Ok(out)
}

// The bytes of a change, by its parts; each add has its text.
pub fn bytes_of_change(
    heap: Global,
    name: Name,
    sheet: Sheet,
    needs: &[u32],
    adds: &[AddView<'_>],
    kills: &[u32],
) -> Result<Vec<u8>, AllocError>
    requires { well_formed (change_by name.0 sheet.0 needs.now adds.now kills.now) ≡ true }
    ensures bytes { IfOk result (λ v. v.items ≡ change_bytes (change_by name.0 sheet.0 needs.now adds.now kills.now)) }
    ensures reads_back { IfOk result (λ v. change_of v.items ≡ Ok (change_by name.0 sheet.0 needs.now adds.now kills.now, [])) }
{
    let mut out = Vec::new(heap);
    push_front(&mut out, name, sheet, needs)?;
    push_adds_seen(&mut out, adds)?;
    push_numbers(&mut out, kills)?;
    Ok(out)
}

impl<'a> ChangeView<'a> {
    // A copy of the change's bytes, which read again give the change.
    pub fn to_bytes(&self, heap: Global) -> Result<Vec<u8>, AllocError>
        ensures bytes { IfOk result (λ v. v.items ≡ change_bytes (viewed self.now)) }
        ensures reads_back { IfOk result (λ v. change_of v.items ≡ Ok (viewed self.now, [])) }
    {
        Vec::from_slice(heap, self.bytes)
    }
}
