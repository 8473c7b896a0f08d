//! The table of commands as clap's types: the arguments of a command as constants, clap's arguments made of them, and
//! clap's parser of the whole command line.
use crate::commands::{COMMANDS, CommandSpec};
use crate::version::VERSION;
use clap::builder::ValueParser;
use clap::{Arg, ArgAction, Command};
use std::alloc::{AllocError, Global};

/// An argument of a command: a path or an option.
#[derive(Clone, Copy)]
pub(crate) struct ArgSpec {
    pub(crate) name: &'static str,
    pub(crate) help: &'static str,
    pub(crate) kind: ArgKind,
    pub(crate) relation: ArgRelation,
}

/// The kind of an argument.
#[derive(Clone, Copy)]
pub(crate) enum ArgKind {
    /// A path, which is required.
    Path,
    /// An option, with its action, the names of its values in help, and the values that it takes.
    Option(ArgAction, &'static [&'static str], ValueParser<'static>),
}

impl ArgKind {
    /// An option without a value.
    pub(crate) const FLAG: ArgKind = ArgKind::Option(ArgAction::SetTrue, &[], ValueParser::Bool);
}

/// The relation of an option to another option.
#[derive(Clone, Copy)]
pub(crate) enum ArgRelation {
    /// The option needs no other option, and excludes none.
    Free,
    /// The option needs this other one.
    Needs(&'static str),
    /// The option cannot be given with this other one.
    Excludes(&'static str),
}

impl ArgSpec {
    /// Returns clap's argument for this option or path.
    pub(crate) fn clap_arg<'a>(&self, alloc: Global) -> Result<Arg<'a>, AllocError> {
        let arg = Arg::new(alloc, self.name).help(self.help);
        match self.kind {
            ArgKind::Path => Ok(arg.required(true)),
            ArgKind::Option(action, values, parser) => {
                let arg = arg.long(self.name).action(action);
                self.relation
                    .bind(arg.value_names(values).value_parser(parser))
            }
        }
    }
}

impl ArgRelation {
    /// Returns clap's argument with this relation.
    fn bind<'a>(&self, arg: Arg<'a>) -> Result<Arg<'a>, AllocError> {
        match *self {
            ArgRelation::Free => Ok(arg),
            ArgRelation::Needs(other) => arg.requires_arg(other),
            ArgRelation::Excludes(other) => arg.conflicts_with(other),
        }
    }
}

/// Returns the parser of the program's command line.
pub(crate) fn program_parser<'a>(alloc: Global) -> Result<Command<'a>, AllocError> {
    program_of(alloc, command_parsers(alloc, COMMANDS)?)
}

/// Returns the parsers of these commands.
fn command_parsers<'a>(
    alloc: Global,
    specs: &[CommandSpec],
) -> Result<Vec<Command<'a>>, AllocError> {
    let mut commands = Vec::with_capacity(alloc, specs.len())?;
    for spec in specs {
        commands.push(command_parser(alloc, spec)?)?;
    }
    Ok(commands)
}

/// Returns the parser of the program with these commands.
fn program_of<'a>(alloc: Global, commands: Vec<Command<'a>>) -> Result<Command<'a>, AllocError> {
    let about =
        "Receives studio audio over IP, live or from a trace. Without a command it lists the marks of the trace on \
             standard input, by the configuration of examples/first. `darbexum help config` lists the keys of a \
             configuration. docs/FORMATS.md defines all texts";
    let command = Command::new(alloc, "darbexum")
        .about(about)
        .version(VERSION)
        // The caller leaves the program's name out of the words.
        .no_binary_name(true);
    command.subcommands(commands)?.bin_name("darbexum")
}

/// Returns the parser of a command with its arguments.
fn command_parser<'a>(alloc: Global, spec: &CommandSpec) -> Result<Command<'a>, AllocError> {
    let args = arg_list(alloc, spec)?;
    Command::new(alloc, spec.name)
        .about(spec.about)
        .after_help(spec.example)
        .args(args)
}

/// Returns clap's arguments for a command.
fn arg_list<'a>(alloc: Global, spec: &CommandSpec) -> Result<Vec<Arg<'a>>, AllocError> {
    let mut args = Vec::with_capacity(alloc, spec.args.len())?;
    for arg in spec.args {
        args.push(arg.clap_arg(alloc)?)?;
    }
    Ok(args)
}
