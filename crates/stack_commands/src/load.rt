//! The command `load`: checks a stack, and says what its devices are.
ghost use Rattle.std.specs.Prelude.{◌⊎◌, map, IfErr, OnOk};
ghost use Rattle.command_line.specs.Bindings.{binding_record};
ghost use Rattle.stack_files.specs.Warnings.{notes_of};
ghost use Rattle.stack_commands.specs.Endings.{IsSilent, IsReplyUnwritten};
ghost use Rattle.stack_commands.specs.Contexts.{DoesLoad, EndsListing, EndsLoad, IsSilentOn, ListsFile, PrintsConfiguration};
ghost use Rattle.stack_commands.specs.StackCommands.{IsCheckedIf, IsObjectUnmade};

use crate::context::Context;
use crate::fault::CommandFault;
use crate::words::stack_file;
use command_line::{Binding, ListForm, LoadWords};
use image_files::Images;
use linux_rules::{LinuxFault, check_linux};
use program_io::Counted;
use scan_commands::{devices_line, say_devices, say_tree};
use stack_config::Config;
use stack_files::{StackFile, note_unchecked, open_configuration};
use std::alloc::Global;
use std::io::Write;

/// `load [--json | --tree] [--linux] STACK BINDING...`: prints the devices of a stack file over the bindings, as a JSON object, a
/// tree or a line each; with `--linux` only if Linux would load them too, and read and write the same. A warning among the errors
/// says that no signature is checked, if a line names the key of one.
///
/// # Errors
///
/// - `Stack` if a file can't be opened, or there is no stack.
/// - `Linux` with the first refusal of Linux.
/// - `NoMemory` if an allocation was refused.
/// - `Session` if a line can't be written.
pub fn invoke_load<'a, I: Images, W: Write, E: Write>(
    alloc: Global,
    context: Context<'_, I, W>,
    words: LoadWords<'a>,
    errors: &mut Counted<E>,
) -> Result<(), CommandFault<'a>>
    ensures ok { OnOk result (DoesLoad I.relations I.Dev.state W.contents context.entry context.exit words.entry (notes_of E.contents errors.old errors.new)) }
    ensures err { IfErr result (EndsLoad I.relations I.Dev.state W.contents context.entry context.exit words.entry (notes_of E.contents errors.old errors.new)) }
{
    let LoadWords {
        stack,
        bindings,
        form,
        linux,
    } = words;
    let file = stack_file(stack, &bindings);
    load_stack_file(alloc, context, file, form, linux, errors)
}

// The devices of a stack file.
#[tactic(auto, using(crate::proofs::EndingLemmas::quiet))]
fn load_stack_file<'a, I: Images, W: Write, E: Write>(
    alloc: Global,
    context: Context<'_, I, W>,
    file: StackFile<'a, '_>,
    form: ListForm,
    linux: bool,
    errors: &mut Counted<E>,
) -> Result<(), CommandFault<'a>>
    ensures ok { OnOk result (ListsFile I.relations I.Dev.state W.contents context.entry context.exit file.entry form linux (notes_of E.contents errors.old errors.new)) }
    ensures err { IfErr result (EndsListing I.relations I.Dev.state W.contents context.entry context.exit file.entry form linux (notes_of E.contents errors.old errors.new)) }
    ensures quiet { IfErr result (IsSilentOn W.contents context.entry context.exit) }
{
    let Context { images, writer } = context;
    let bindings = file.bindings;
    let config = open_configuration(alloc, images, file)?;
    note_unchecked(errors, &config);
    check_rules(&config, linux)?;
    say_configuration(alloc, &config, bindings, form, writer)
}

// With `linux`, whether Linux would take the configuration too.
fn check_rules(config: &Config, linux: bool) -> Result<(), LinuxFault>
    ensures { IsCheckedIf linux config.now result }
{
    if linux {
        return check_linux(config);
    }
    Ok(())
}

// Prints the mapped devices, as an object on one line, a tree or a line each.
#[tactic(auto, using(crate::proofs::EndingLemmas::quiet))]
fn say_configuration<'a, W: Write>(
    alloc: Global,
    config: &Config,
    bindings: &[Binding<'_>],
    form: ListForm,
    writer: &mut Counted<W>,
) -> Result<(), CommandFault<'a>>
    ensures ok { OnOk result (PrintsConfiguration W.contents writer.old writer.new config.now (map binding_record bindings.now) form) }
    ensures err { IfErr result (λ fault. IsObjectUnmade form fault ⊎ IsReplyUnwritten writer.new.failed fault) }
    ensures quiet { IfErr result (λ fault. IsSilent fault (W.contents writer.old.inner) (W.contents writer.new.inner)) }
{
    match form {
        ListForm::Lines => {
            say_devices(config, writer)?;
            Ok(())
        }
        ListForm::Tree => {
            say_tree(config, bindings, writer)?;
            Ok(())
        }
        ListForm::Object => {
            let line = devices_line(alloc, config)?;
            writer.put(line.as_bytes())?;
            Ok(())
        }
    }
}
