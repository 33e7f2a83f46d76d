//! What is printed of a configuration or a script that is refused.

ghost use Rattle.std.specs.Prelude.{◌≡◌, ◌++◌, IfOk, OnOk, string_bytes};
ghost use Rattle.am_command_line.specs.Refusals.{refused_config, refused_script};

use crate::config_code::ConfigCode;
use crate::status::Status;
use am_config::ConfigFault;
use am_script::{Fault, Form, JsonLine, Refusal, write_fault, write_text};
use std::alloc::{AllocError, Global};
use std::io::Write;

/// The first line is above the limit.
pub const FIRST_LINE_TOO_LARGE: Refusal = Refusal {
    number: 1,
    fault: Fault::TooLarge,
};

pub fn refused_config(alloc: Global, form: Form, fault: ConfigFault) -> Result<String, AllocError>
    ensures { IfOk result (λ text. string_bytes text ≡ refused_config form fault) }
{
    match form {
        Form::Text => format!(in alloc; "config {}\n", ConfigCode(&fault)),
        Form::Json => config_object(alloc, fault),
    }
}

fn config_object(alloc: Global, fault: ConfigFault) -> Result<String, AllocError>
    ensures { IfOk result (λ text. string_bytes text ≡ refused_config Form.Json fault) }
{
    let mut text = String::new(alloc);
    write_config(&mut text, fault)?;
    Ok(text)
}

fn write_config(text: &mut String, fault: ConfigFault) -> Result<(), AllocError>
    ensures { OnOk result
        (string_bytes text.new ≡ string_bytes text.old ++ refused_config Form.Json fault) }
{
    let mut line = JsonLine::begin(*text.allocator())?;
    line.text("answer", "refused")?;
    line.text("do", "config")?;
    line.shown("fault", &ConfigCode(&fault))?;
    line.end(text)
}

pub fn refused_script(alloc: Global, form: Form, refusal: Refusal) -> Result<String, AllocError>
    ensures { IfOk result (λ text. string_bytes text ≡ refused_script form refusal) }
{
    match form {
        Form::Text => format!(in alloc; "{refusal}\n"),
        Form::Json => script_object(alloc, refusal),
    }
}

fn script_object(alloc: Global, refusal: Refusal) -> Result<String, AllocError>
    ensures { IfOk result (λ text. string_bytes text ≡ refused_script Form.Json refusal) }
{
    let mut text = String::new(alloc);
    write_fault(&mut text, u64::from(refusal.number), refusal.fault)?;
    Ok(text)
}

/// Tells a person more of a refusal that was printed. If that can't be written, the output alone has said it.
pub fn advise<E: Write>(err: &mut E, status: Status, advice: &Option<String>) {
    if status != Status::Refused {
        return;
    }
    if let Some(advice) = advice {
        let _told = write_text(err, advice.as_bytes());
    }
}
