//! What is remarked of a scenario that is accepted.
ghost use Rattle.std.specs.Prelude.{◌≡◌, Some, IfOk, string_bytes};
ghost use Rattle.toml.specs.View.{table_view};
ghost use Rattle.srm_explain.specs.Remarks.{is_hardly_meant, remark_line, Remarks, RemarksOn, TellsRemark};

use crate::pictures::picture_of_value;
use srm_scenario::fault::Part;
use srm_scenario::file_key::FileKey;
use srm_scenario::table::number;
use std::alloc::{AllocError, Global};
use toml::Table;

/// What is remarked of the scenario that a text describes: of each constant of timers of 1 to 64 thousandths, which are the
/// whole numbers that a constant may be, that it is told in thousandths; and the line in which it stands. Nothing is remarked
/// of other texts.
///
/// # Errors
/// [`AllocError`].
pub fn remarks(alloc: Global, text: &[u8]) -> Result<String, AllocError>
    ensures { IfOk result (λ told. Remarks text.now (string_bytes told)) }
{
    match toml::table_from_slice(alloc, text) {
        Ok(top) => remarks_on(alloc, text, &top),
        Err(error) => {
            if error.is_memory() {
                Err(AllocError)
            } else {
                Ok(String::new(alloc))
            }
        }
    }
}

// What is remarked of a document, which this text is.
fn remarks_on(alloc: Global, text: &[u8], top: &Table) -> Result<String, AllocError>
    ensures { IfOk result (λ told. RemarksOn (Some (table_view top.now)) (string_bytes told)) }
{
    let c1 = remark_of(alloc, text, top, FileKey::C1)?;
    let c2 = remark_of(alloc, text, top, FileKey::C2)?;
    let d1 = remark_of(alloc, text, top, FileKey::D1)?;
    let d2 = remark_of(alloc, text, top, FileKey::D2)?;
    let told = format!(in alloc; "{c1}{c2}{d1}{d2}")?;
    Ok(told)
}

// What is remarked of the constant at a key.
fn remark_of(alloc: Global, text: &[u8], top: &Table, key: FileKey) -> Result<String, AllocError>
    ensures { IfOk result (λ told. TellsRemark (table_view top.now) key (string_bytes told)) }
{
    let constant = number(top, key);
    if !is_hardly_meant(constant) {
        return Ok(String::new(alloc));
    }
    let line = remark_line(alloc, key, constant)?;
    let picture = picture_of_value(alloc, text, Part::Top, 0, key)?;
    let told = format!(in alloc; "{line}{picture}")?;
    Ok(told)
}

// Whether a constant is so small that another one was probably meant.
fn is_hardly_meant(constant: u64) -> bool
    ensures { result ≡ is_hardly_meant constant }
{
    1 <= constant && constant < 65
}

// What is said of the constant at a key.
fn remark_line(alloc: Global, key: FileKey, constant: u64) -> Result<String, AllocError>
    ensures { IfOk result (λ line. string_bytes line ≡ remark_line key constant) }
{
    let name = key.name();
    let told = format!(in alloc;
        "remark: {name} is in thousandths: where {constant} is meant, write {constant}000\n"
    )?;
    Ok(told)
}
