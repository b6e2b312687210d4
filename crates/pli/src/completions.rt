// What shells complete words by, from the description of the command line.

use crate::command::value_name;
use clap::builder::ValueParser;
use clap::{Arg, Command};
use std::alloc::{AllocError, Global};

/// The shells.
pub const SHELLS: [&str; 3] = ["bash", "zsh", "fish"];

// A text between single quotes; each of the shells takes a quote of the text so.
fn push_quoted(script: &mut String, plain: &str) -> Result<(), AllocError> {
    for character in plain.chars() {
        match character {
            '\'' => script.push_str("'\\''")?,
            _ => script.push(character)?,
        }
    }
    Ok(())
}

// The words that an argument may have, with blanks between; nothing where it may have any.
fn push_values(script: &mut String, arg: &Arg<'_>) -> Result<(), AllocError> {
    if let ValueParser::Names(names) = arg.get_value_parser() {
        for (place, name) in names.iter().enumerate() {
            if place > 0 {
                script.push(' ')?;
            }
            script.push_str(name)?;
        }
    }
    Ok(())
}

// How an option is named: `--bound` or `-o`; nothing where the argument is none.
fn push_option(script: &mut String, arg: &Arg<'_>) -> Result<(), AllocError> {
    if let Some(long) = arg.get_long() {
        write!(script, "--{long}")?;
    } else if let Some(short) = arg.get_short() {
        write!(script, "-{short}")?;
    }
    Ok(())
}

fn has_names(arg: &Arg<'_>) -> bool {
    matches!(arg.get_value_parser(), ValueParser::Names(_))
}

// The options of a subcommand, and the words that stand for themselves, each before a blank.
fn push_words(script: &mut String, command: &Command<'_>) -> Result<(), AllocError> {
    for arg in command.get_arguments() {
        if arg.is_positional() {
            push_values(script, arg)?;
        } else {
            push_option(script, arg)?;
        }
        script.push(' ')?;
    }
    Ok(())
}

fn push_names(script: &mut String, command: &Command<'_>) -> Result<(), AllocError> {
    for subcommand in command.get_subcommands() {
        let name = subcommand.get_name();
        write!(script, "{name} ")?;
    }
    Ok(())
}

// The cases of a subcommand: behind an option that has one of some words, and elsewhere.
fn push_bash_cases(script: &mut String, command: &Command<'_>) -> Result<(), AllocError> {
    let name = command.get_name();
    for arg in command.get_arguments() {
        if has_names(arg) && !arg.is_positional() {
            write!(script, "        *,{name},")?;
            push_option(script, arg)?;
            script.push_str(") words='")?;
            push_values(script, arg)?;
            script.push_str("' ;;\n")?;
        }
    }
    write!(script, "        *,{name},*) words='")?;
    push_words(script, command)?;
    script.push_str("' ;;\n")
}

// Where nothing fits, bash completes names of files.
fn bash(alloc: Global, command: &Command<'_>) -> Result<String, AllocError> {
    let name = command.get_name();
    let mut script = String::new(alloc);
    writeln!(script, "_{name}() {{")?;
    script.push_str("    local words='' word=${COMP_WORDS[COMP_CWORD]}\n")?;
    script.push_str("    case $COMP_CWORD,${COMP_WORDS[1]},${COMP_WORDS[COMP_CWORD-1]} in\n")?;
    script.push_str("        1,*) words='")?;
    push_names(&mut script, command)?;
    script.push_str("' ;;\n")?;
    for subcommand in command.get_subcommands() {
        push_bash_cases(&mut script, subcommand)?;
    }
    script.push_str("    esac\n    COMPREPLY=($(compgen -W \"$words\" -- \"$word\"))\n}\n")?;
    writeln!(script, "complete -o default -F _{name} {name}")?;
    Ok(script)
}

fn is_file(arg: &Arg<'_>) -> bool {
    matches!(value_name(arg.get_id()), "SRC" | "IMG" | "F")
}

// What zsh completes the value of an argument by.
fn push_zsh_value(script: &mut String, arg: &Arg<'_>) -> Result<(), AllocError> {
    let value = value_name(arg.get_id());
    write!(script, ":{value}:")?;
    if is_file(arg) {
        return script.push_str("_files");
    }
    script.push('(')?;
    push_values(script, arg)?;
    script.push(')')
}

// The arguments of a subcommand, each a word of the function `_arguments` of zsh.
fn push_zsh_arguments(script: &mut String, command: &Command<'_>) -> Result<(), AllocError> {
    for arg in command.get_arguments() {
        script.push_str(" '")?;
        if arg.is_positional() {
            script.push('*')?;
        } else {
            push_option(script, arg)?;
            script.push('[')?;
            push_quoted(script, arg.get_help().unwrap_or(""))?;
            script.push(']')?;
        }
        if arg.get_action().takes_values() {
            push_zsh_value(script, arg)?;
        }
        script.push('\'')?;
    }
    Ok(())
}

fn push_zsh_cases(script: &mut String, command: &Command<'_>) -> Result<(), AllocError> {
    for subcommand in command.get_subcommands() {
        let name = subcommand.get_name();
        write!(script, "        {name}) _arguments")?;
        push_zsh_arguments(script, subcommand)?;
        script.push_str(" ;;\n")?;
    }
    Ok(())
}

fn zsh(alloc: Global, command: &Command<'_>) -> Result<String, AllocError> {
    let name = command.get_name();
    let mut script = String::new(alloc);
    writeln!(script, "#compdef {name}\n_{name}() {{")?;
    script.push_str("    if (( CURRENT == 2 )); then\n        compadd ")?;
    push_names(&mut script, command)?;
    script.push_str("\n        return\n    fi\n    shift words\n    (( CURRENT-- ))\n")?;
    script.push_str("    case $words[1] in\n")?;
    push_zsh_cases(&mut script, command)?;
    writeln!(script, "    esac\n}}\ncompdef _{name} {name}")?;
    Ok(script)
}

// How fish takes an argument: by what name, and with what value.
fn push_fish_argument(script: &mut String, arg: &Arg<'_>) -> Result<(), AllocError> {
    if let Some(long) = arg.get_long() {
        write!(script, " -l {long}")?;
    } else if let Some(short) = arg.get_short() {
        write!(script, " -s {short}")?;
    }
    if has_names(arg) {
        script.push_str(" -x -a '")?;
        push_values(script, arg)?;
        script.push('\'')?;
    } else if arg.get_action().takes_values() {
        script.push_str(if is_file(arg) { " -r -F" } else { " -x" })?;
    }
    script.push_str(" -d '")?;
    push_quoted(script, arg.get_help().unwrap_or(""))?;
    script.push_str("'\n")
}

fn push_fish_subcommand(
    script: &mut String,
    name: &str,
    command: &Command<'_>,
) -> Result<(), AllocError> {
    let subcommand = command.get_name();
    write!(
        script,
        "complete -c {name} -n __fish_use_subcommand -f -a {subcommand} -d '"
    )?;
    push_quoted(script, command.get_about().unwrap_or(""))?;
    script.push_str("'\n")?;
    for arg in command.get_arguments() {
        write!(
            script,
            "complete -c {name} -n '__fish_seen_subcommand_from {subcommand}'"
        )?;
        push_fish_argument(script, arg)?;
    }
    Ok(())
}

fn fish(alloc: Global, command: &Command<'_>) -> Result<String, AllocError> {
    let mut script = String::new(alloc);
    for subcommand in command.get_subcommands() {
        push_fish_subcommand(&mut script, command.get_name(), subcommand)?;
    }
    Ok(script)
}

/// The script by which a shell completes the words of a command: that of bash where the shell isn't one of `SHELLS`.
pub fn completions(
    alloc: Global,
    command: &Command<'_>,
    shell: &str,
) -> Result<String, AllocError> {
    match shell {
        "zsh" => zsh(alloc, command),
        "fish" => fish(alloc, command),
        _ => bash(alloc, command),
    }
}
