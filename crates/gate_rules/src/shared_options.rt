ghost use Rattle.std.specs.Prelude.{◌≡◌, IfOk};
ghost use Rattle.gate_rules.specs.Options.{no_options};

use crate::Options;
use fw_types::NoMemory;
use std::alloc::Global;
use std::marker::Model;

/// The options of a line, kept apart from it, so that a line without any takes no room for them.
#[derive(Drop)]
pub struct SharedOptions {
    options: Option<Box<Options>>,
}

impl Model for SharedOptions {
    ghost use Rattle.gate_rules.specs.declared.options.Options.{Options};
    ghost use Rattle.gate_rules.specs.SharedOptions.{shared_options};

    ghost Value = { Options };

    ghost view = { λ shared. shared_options shared.options };
}

impl SharedOptions {
    /// No option.
    pub(crate) fn none() -> SharedOptions
        ensures { result ≡ no_options }
    {
        SharedOptions { options: None }
    }

    /// These options.
    pub(crate) fn of(alloc: Global, options: Options) -> Result<SharedOptions, NoMemory>
        ensures { IfOk result (λ shared. shared ≡ options) }
    {
        let options = Box::new(alloc, options)?;
        Ok(SharedOptions {
            options: Some(options),
        })
    }

    /// The options; those that are handed in where there are none.
    pub(crate) fn get<'a>(&'a self, none: &'a Options) -> &'a Options
        requires { none.now ≡ no_options }
        ensures { result.now ≡ self.entry.now }
    {
        match &self.options {
            Some(options) => options,
            None => none,
        }
    }
}
