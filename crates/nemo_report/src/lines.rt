ghost use Rattle.std.specs.Prelude.{◌≡◌, OnOk, IfOk};
ghost use Rattle.nemo_report.specs.Texts.{data_of, row_data};
ghost use Rattle.nemo_report.specs.Texts as spec;
ghost use Rattle.nemo_report.specs.Tokens.{AddsValue};

use json::Writer;
use nemo_value::{Field, NoMemory, Record};

fn write_field(writer: &mut Writer, field: &Field) -> Result<(), NoMemory>
    ensures { OnOk result (AddsValue writer.old writer.new (data_of field.now)) }
{
    match field {
        Field::Int(n) => writer.i64(*n)?,
        Field::Text(text) => writer.string(text.as_str())?,
    }
    Ok(())
}

fn write_row(writer: &mut Writer, row: &Record) -> Result<(), NoMemory>
    ensures { OnOk result (AddsValue writer.old writer.new (row_data row.now)) }
{
    writer.begin_array()?;
    for field in row.fields().as_slice() {
        write_field(writer, field)?;
    }
    writer.end_array()?;
    Ok(())
}

/// The line of a row: its fields as a compact JSON array. It takes the place of what `line` held, so that many lines need the memory of one.
pub(crate) fn row_line(line: Vec<u8>, row: &Record) -> Result<Vec<u8>, NoMemory>
    ensures { IfOk result (λ text. text.items ≡ spec.row_line row.now) }
{
    let mut text = line;
    text.clear();
    let mut writer = Writer::new(text);
    write_row(&mut writer, row)?;
    Ok(writer.into_inner())
}
