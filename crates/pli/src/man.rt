// The page of the manual, from the description of the command line.

use crate::command::value_name;
use clap::{Arg, Command};
use std::alloc::{AllocError, Global};

// A text whose characters stand for themselves in roff.
fn push_plain(page: &mut String, plain: &str) -> Result<(), AllocError> {
    for character in plain.chars() {
        match character {
            '-' => page.push_str("\\-")?,
            '\\' => page.push_str("\\e")?,
            _ => page.push(character)?,
        }
    }
    Ok(())
}

// How an argument is written.
fn push_form(page: &mut String, arg: &Arg<'_>) -> Result<(), AllocError> {
    if let Some(long) = arg.get_long() {
        page.push_str("\\fB\\-\\-")?;
        push_plain(page, long)?;
        page.push_str("\\fR")?;
    }
    if let Some(short) = arg.get_short() {
        write!(page, "\\fB\\-{short}\\fR")?;
    }
    if arg.get_action().takes_values() {
        page.push_str(if arg.is_positional() { "\\fI" } else { " \\fI" })?;
        push_plain(page, value_name(arg.get_id()))?;
        page.push_str("\\fR")?;
    }
    page.push('\n')
}

// An argument with its help, and the value that it has where it is left out.
fn push_argument(page: &mut String, arg: &Arg<'_>) -> Result<(), AllocError> {
    page.push_str(".TP\n")?;
    push_form(page, arg)?;
    push_plain(page, arg.get_help().unwrap_or(""))?;
    if let Some(default) = arg.get_default_values().first() {
        page.push_str(": ")?;
        push_plain(page, default)?;
        page.push_str(" where it is left out")?;
    }
    page.push_str(".\n")
}

fn push_subcommand(page: &mut String, name: &str, command: &Command<'_>) -> Result<(), AllocError> {
    page.push_str(".SS ")?;
    push_plain(page, name)?;
    page.push(' ')?;
    push_plain(page, command.get_name())?;
    page.push('\n')?;
    push_plain(page, command.get_about().unwrap_or(""))?;
    page.push_str(".\n")?;
    for arg in command.get_arguments() {
        push_argument(page, arg)?;
    }
    Ok(())
}

/// The page, in roff with the macros of man.
pub fn man_page(alloc: Global, command: &Command<'_>) -> Result<String, AllocError> {
    let name = command.get_name();
    let about = command.get_about().unwrap_or("");
    let version = command.get_version().unwrap_or("");
    let mut page = String::new(alloc);
    writeln!(page, ".TH {name} 1 \"\" \"{name} {version}\"")?;
    write!(page, ".SH NAME\n{name} \\- ")?;
    push_plain(&mut page, about)?;
    write!(
        page,
        "\n.SH SYNOPSIS\n\\fB{name}\\fR \\fICOMMAND\\fR ..\n.SH COMMANDS\n"
    )?;
    for subcommand in command.get_subcommands() {
        push_subcommand(&mut page, name, subcommand)?;
    }
    Ok(page)
}
