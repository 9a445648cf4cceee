//! What is known before any table.

ghost use Rattle.std.specs.Prelude.{◌≡◌, ◌∷◌, [], true, IfOk, OnOk, IsTrue};
ghost use Rattle.acpi_name.specs.Names.{is_segment};
ghost use Rattle.acpi_survey.specs.Predefined.{with_object, with_objects, predefined_scopes, predefined_objects, first_reading};

use crate::names::{null_name, segment_name};
use crate::reading::Reading;
use acpi_name::{Path, Seg};
use std::alloc::{AllocError, Global};

/// The number of objects that are there before any table.
pub const PREDEFINED: usize = 10;

impl Reading {
    // Puts an object below the root.
    #[tactic(auto, unfolding(crate::specs::Predefined::with_object))]
    fn predefine_named(
        &mut self,
        segment: [u8; 4],
        is_scope: bool,
        args: u8,
    ) -> Result<(), AllocError>
        requires { IsTrue (is_segment segment) }
        ensures { OnOk result (self.new ≡ with_object self.old
            (record { path = segment ∷ []; is_scope = is_scope; args = args })) }
    {
        match Seg::new(segment) {
            Some(seg) => {
                let name = segment_name(self.memory(), seg)?;
                let mut path = Path::root(self.memory());
                path.push(seg)?;
                self.predefine(name, path, is_scope, args)
            }
            None => unreachable!(),
        }
    }

    // Puts the root.
    #[tactic(auto, unfolding(crate::specs::Predefined::with_object))]
    fn predefine_root(&mut self) -> Result<(), AllocError>
        ensures { OnOk result (self.new ≡ with_object self.old
            (record { path = []; is_scope = true; args = 0 })) }
    {
        let name = null_name(self.memory())?;
        let path = Path::root(self.memory());
        self.predefine(name, path, true, 0)
    }

    // Puts the scopes.
    fn predefine_scopes(&mut self) -> Result<(), AllocError>
        ensures { OnOk result (self.new ≡ with_objects self.old predefined_scopes) }
    {
        self.predefine_named(*b"_GPE", true, 0)?;
        self.predefine_named(*b"_PR_", true, 0)?;
        self.predefine_named(*b"_SB_", true, 0)?;
        self.predefine_named(*b"_SI_", true, 0)?;
        self.predefine_named(*b"_TZ_", true, 0)
    }

    // Puts the objects that are no scopes.
    fn predefine_objects(&mut self) -> Result<(), AllocError>
        ensures { OnOk result (self.new ≡ with_objects self.old predefined_objects) }
    {
        self.predefine_named(*b"_GL_", false, 0)?;
        self.predefine_named(*b"_OSI", false, 1)?;
        self.predefine_named(*b"_OS_", false, 0)?;
        self.predefine_named(*b"_REV", false, 0)
    }

    /// What is known before any table (ACPI 6.5, 5.3.1 and 5.7).
    #[tactic(auto, unfolding(crate::specs::Predefined::first_reading))]
    pub(crate) fn new(alloc: Global) -> Result<Reading, AllocError>
        ensures { IfOk result (λ s. s ≡ first_reading) }
    {
        let mut reading = Reading::empty(alloc);
        reading.predefine_root()?;
        reading.predefine_scopes()?;
        reading.predefine_objects()?;
        Ok(reading)
    }
}
