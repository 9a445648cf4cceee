//! The declaration pass over the items of one table.

ghost use Rattle.std.specs.Prelude.{IsTrue, ◌≡◌, ◌≢◌, true, None, Some, List, ◌∷◌, [], ◌++◌, ◌+◌, ◌<◌, ◌^◌, IfOk, IfErr, OnOk};
ghost use Rattle.std.specs.List.{list_all};
ghost use Rattle.acpi_space.specs.Lookups.{singleton, union};
ghost use Rattle.acpi_tree.specs.Objects.{object_view, field_object, method_object};
ghost use Rattle.acpi_tree.specs.Fits.{external_fits, item_fits};
ghost use Rattle.acpi_tree.specs.Offsets.{element_bits, list_bits, OffsetFits};
ghost use Rattle.acpi_tree.specs.View.{item_view, external_view, externals_view, field_view, fields_view};
ghost use Rattle.acpi_pass.specs.Pending.{pending_for};
ghost use Rattle.acpi_pass.specs.Namespace.{namespace_of};
ghost use Rattle.acpi_pass.specs.Sites.{step, declares_alone, declares, is_leaf, own_steps, external_step, external_steps, unit_step, unit_name, unit_steps};
ghost use Rattle.acpi_pass.specs.Notes.{notes_of};
ghost use Rattle.acpi_pass.specs.Placing.{declared_path};
ghost use Rattle.acpi_pass.specs.steps.Pass.{take_step, take_steps};
ghost use Rattle.acpi_pass.specs.steps.View.{pass_of, pass_with_units, with_method};
ghost use Rattle.acpi_pass.specs.steps.Outcomes.{Ends, IsOutcome};

use crate::field_list::{FieldList, behind, one, two};
use crate::notes::TableNotes;
use crate::pending::{LinkedPaths, PendingLinks, add_links, add_links_of};
use crate::placing::{declared_path, declared_unit_path, put};
use crate::refusal::PassError;
use acpi_name::{Name, Path, Seg};
use acpi_space::Space;
use acpi_tree::{External, FieldElem, FieldForm, Item, Object};
use bytes::Bytes;
use std::alloc::{AllocError, Global};
use std::marker::Model;

/// What the pass has so far: the namespace, the links to search, and what the table notes.
#[derive(Drop)]
pub struct Pass<S: Space<Object>> {
    /// Where memory comes from.
    pub alloc: Global,
    /// The namespace.
    pub objects: S,
    /// The links that are searched when all tables are declared.
    pub links: Vec<PendingLinks>,
    /// What the table notes.
    pub notes: TableNotes,
}

impl<S: Space<Object>> Model for Pass<S> {
    ghost use Rattle.acpi_pass.specs.Pending.{all_pending_of};
    ghost use Rattle.acpi_pass.specs.steps.View.{PassState, pass_code};

    ghost Value = { PassState };

    ghost coded = { pass_code };

    ghost view = { λ p. record {
      objects = S.contents p.objects;
      lower = S.lower p.objects;
      links = all_pending_of p.links.items;
      notes = p.notes;
    } };
}

impl<S: Space<Object>> Pass<S> {
    // Where a declaration of the name puts its object.
    pub(crate) fn free_path(&self, scope: &Path, name: &Name) -> Result<Path, PassError>
        ensures { IsOutcome result
            (declared_path (namespace_of self.now.objects) scope.now name.now) }
    {
        declared_path(self.alloc, &self.objects, scope, name)
    }

    // Where a field unit is declared.
    fn free_unit_path(&self, scope: &Path, seg: Seg) -> Result<Path, PassError>
        ensures { IsOutcome result
            (declared_path (namespace_of self.now.objects) scope.now (unit_name seg)) }
    {
        declared_unit_path(&self.objects, scope, seg)
    }

    // Puts an object at a path that is free.
    pub(crate) fn put(&mut self, path: Path, object: Object) -> Result<(), AllocError>
        requires { namespace_of self.old.objects path ≡ None }
        ensures objects { OnOk result (namespace_of self.new.objects ≡ union
            (namespace_of self.old.objects) (singleton path (object_view object))) }
        ensures links { self.new.links ≡ self.old.links }
        ensures notes { self.new.notes ≡ self.old.notes }
        ensures lower { OnOk result (self.new.lower ≡ self.old.lower) }
    {
        put(&mut self.objects, path, object)?;
        Ok(())
    }

    // Declares an object that has no links.
    fn declare(&mut self, scope: &Path, name: &Name, object: Object) -> Result<(), PassError>
        ensures steps { Ends result (take_step (pass_of self.old) scope.now
            (step name.now (declares_alone (object_view object)))) (pass_of self.new) }
        ensures lower { OnOk result (self.new.lower ≡ self.old.lower) }
    {
        let path = self.free_path(scope, name)?;
        self.put(path, object)?;
        Ok(())
    }

    // Puts a method at a path that is free, and notes it.
    fn put_method(&mut self, path: Path, flags: u8, code: Bytes) -> Result<(), AllocError>
        requires { namespace_of self.old.objects path ≡ None }
        ensures objects { OnOk result (namespace_of self.new.objects ≡ union
            (namespace_of self.old.objects) (singleton path (method_object flags))) }
        ensures links { self.new.links ≡ self.old.links }
        ensures notes { OnOk result (notes_of self.new.notes ≡ with_method (notes_of self.old.notes)
            (record { path = path; code = code })) }
        ensures lower { OnOk result (self.new.lower ≡ self.old.lower) }
    {
        self.notes.add_method(path.copy()?, code)?;
        self.put(path, Object::Method(flags))?;
        Ok(())
    }

    // Declares a method.
    fn declare_method(
        &mut self,
        scope: &Path,
        name: &Name,
        flags: u8,
        code: Bytes,
    ) -> Result<(), PassError>
        ensures steps { Ends result (take_step (pass_of self.old) scope.now
            (step name.now (declares (method_object flags) [] (Some code)))) (pass_of self.new) }
        ensures lower { OnOk result (self.new.lower ≡ self.old.lower) }
    {
        let path = self.free_path(scope, name)?;
        self.put_method(path, flags, code)?;
        Ok(())
    }

    // Puts an object at a path that is free, and keeps the names of its links.
    fn put_linked(
        &mut self,
        path: Path,
        scope: &Path,
        object: Object,
        names: Vec<Name>,
    ) -> Result<(), AllocError>
        requires { namespace_of self.old.objects path ≡ None }
        ensures objects { OnOk result (namespace_of self.new.objects ≡ union
            (namespace_of self.old.objects) (singleton path (object_view object))) }
        ensures links { OnOk result (self.new.links ≡ self.old.links
            ++ pending_for path scope.now names.items ∷ []) }
        ensures notes { self.new.notes ≡ self.old.notes }
        ensures lower { OnOk result (self.new.lower ≡ self.old.lower) }
    {
        add_links_of(&mut self.links, &path, scope, names)?;
        self.put(path, object)?;
        Ok(())
    }

    // Declares an object of which links are searched.
    fn declare_linked(
        &mut self,
        scope: &Path,
        name: &Name,
        object: Object,
        names: Vec<Name>,
    ) -> Result<(), PassError>
        requires { names.items ≢ [] }
        ensures steps { Ends result (take_step (pass_of self.old) scope.now
            (step name.now (declares (object_view object) names.items None))) (pass_of self.new) }
        ensures lower { OnOk result (self.new.lower ≡ self.old.lower) }
    {
        let path = self.free_path(scope, name)?;
        self.put_linked(path, scope, object, names)?;
        Ok(())
    }

    // Declares a field unit, and adds its segment to those of its list.
    fn declare_unit(
        &mut self,
        scope: &Path,
        fields: &FieldList<'_>,
        segs: &mut Vec<Seg>,
        seg: Seg,
        offset: u64,
        bits: u32,
    ) -> Result<(), PassError>
        requires { fields.now.names.now ≢ [] }
        ensures steps { Ends result (take_step (pass_with_units self.old fields.now.names.now
            scope.now segs.old.items) scope.now (step (unit_name seg)
            (declares (field_object fields.now.form fields.now.flags offset bits)
            fields.now.names.now None))) (pass_with_units self.new fields.now.names.now scope.now
            segs.new.items) }
        ensures lower { OnOk result (self.new.lower ≡ self.old.lower) }
    {
        let path = self.free_unit_path(scope, seg)?;
        segs.push(seg)?;
        let unit = Object::Field {
            form: fields.form,
            flags: fields.flags,
            offset,
            bits,
        };
        self.put(path, unit)?;
        Ok(())
    }

    // Keeps what an External says.
    fn expect(&mut self, scope: &Path, external: &External) -> Result<(), PassError>
        requires { external_fits (external_view external.now) ≡ true }
        ensures steps { Ends result (take_steps (pass_of self.old) scope.now
            (external_step (external_view external.now))) (pass_of self.new) }
        ensures memory { IfErr result (λ f. f ≡ PassError.Memory) }
        ensures lower { OnOk result (self.new.lower ≡ self.old.lower) }
    {
        self.notes.expect(self.alloc, scope, external)?;
        Ok(())
    }

    // Keeps what the Externals of a block say.
    fn expect_all(&mut self, scope: &Path, externals: &[External]) -> Result<(), PassError>
        requires { list_all external_fits (externals_view externals.now) ≡ true }
        ensures steps { Ends result (take_steps (pass_of self.old) scope.now
            (external_steps (externals_view externals.now))) (pass_of self.new) }
        ensures memory { IfErr result (λ f. f ≡ PassError.Memory) }
        ensures lower { OnOk result (self.new.lower ≡ self.old.lower) }
    {
        self.notes.expect_all(self.alloc, scope, externals)?;
        Ok(())
    }

    // Declares what one field element names, and gives the offset behind it.
    fn declare_elem(
        &mut self,
        scope: &Path,
        fields: &FieldList<'_>,
        segs: &mut Vec<Seg>,
        offset: u64,
        elem: &FieldElem,
    ) -> Result<u64, PassError>
        requires some { fields.now.names.now ≢ [] }
        requires room { offset + element_bits (field_view elem.now) < 2 ^ 64 }
        ensures steps { Ends result (take_steps (pass_with_units self.old fields.now.names.now
            scope.now segs.old.items) scope.now (unit_step fields.now.form fields.now.flags
            fields.now.names.now offset (field_view elem.now)))
            (pass_with_units self.new fields.now.names.now scope.now segs.new.items) }
        ensures behind { IfOk result (λ n. n ≡ offset + element_bits (field_view elem.now)) }
        ensures lower { OnOk result (self.new.lower ≡ self.old.lower) }
    {
        match elem {
            FieldElem::Unit(seg, bits) => {
                self.declare_unit(scope, fields, segs, *seg, offset, *bits)?;
                Ok(behind(offset, *bits))
            }
            FieldElem::Reserved(bits) => Ok(behind(offset, *bits)),
            _ => Ok(offset),
        }
    }

    // Declares the units of a field list, and adds their segments.
    fn declare_units(
        &mut self,
        scope: &Path,
        fields: &FieldList<'_>,
        segs: &mut Vec<Seg>,
        elems: Vec<FieldElem>,
    ) -> Result<(), PassError>
        requires some { fields.now.names.now ≢ [] }
        requires room { list_bits (fields_view elems.items) < 2 ^ 64 }
        ensures steps { Ends result (take_steps (pass_with_units self.old fields.now.names.now
            scope.now segs.old.items) scope.now (unit_steps fields.now.form fields.now.flags
            fields.now.names.now 0 (fields_view elems.items)))
            (pass_with_units self.new fields.now.names.now scope.now segs.new.items) }
        ensures lower { OnOk result (self.new.lower ≡ self.old.lower) }
    {
        let mut offset = 0;
        let mut left = elems;
        left.reverse();
        while let Some(elem) = left.pop() {
            offset = self.declare_elem(scope, fields, segs, offset, &elem)?;
        }
        Ok(())
    }

    // An item in which no others stand.
    pub(crate) fn declare_leaf(&mut self, scope: &Path, item: Item) -> Result<(), PassError>
        requires leaf { IsTrue (is_leaf (item_view item)) }
        requires room { OffsetFits (item_view item) }
        requires fits { item_fits (item_view item) ≡ true }
        ensures steps { Ends result (take_steps (pass_of self.old) scope.now
            (own_steps (item_view item))) (pass_of self.new) }
        ensures lower { OnOk result (self.new.lower ≡ self.old.lower) }
    {
        match item {
            Item::Name(name, data) => self.declare(scope, &name, Object::Name(data)),
            Item::Method { name, flags, code } => self.declare_method(scope, &name, flags, code),
            Item::External(external) => self.expect(scope, &external),
            Item::ExternalBlock(externals) => self.expect_all(scope, &externals),
            Item::Create {
                width,
                source,
                index,
                name,
            } => self.declare_buffer_field(scope, &name, Object::Create { width, index }, source),
            Item::CreateField {
                source,
                index,
                bits,
                name,
            } => self.declare_buffer_field(
                scope,
                &name,
                Object::CreateField { index, bits },
                source,
            ),
            Item::Mutex(name, flags) => self.declare(scope, &name, Object::Mutex(flags)),
            Item::Event(name) => self.declare(scope, &name, Object::Event),
            Item::Region {
                name,
                space,
                offset,
                length,
            } => self.declare(
                scope,
                &name,
                Object::Region {
                    space,
                    offset,
                    length,
                },
            ),
            Item::Field {
                region,
                flags,
                elems,
            } => self.declare_field(scope, flags, region, elems),
            Item::IndexField {
                index,
                datum,
                flags,
                elems,
            } => self.declare_fields_by(scope, FieldForm::Index, flags, index, datum, elems),
            Item::BankField {
                region,
                bank,
                value,
                flags,
                elems,
            } => self.declare_fields_by(scope, FieldForm::Bank(value), flags, region, bank, elems),
            Item::Scope(_, _)
            | Item::Device(_, _)
            | Item::Processor { .. }
            | Item::Power { .. }
            | Item::Thermal(_, _) => unreachable!(),
        }
    }

    // Declares a buffer field, whose link searches its source.
    fn declare_buffer_field(
        &mut self,
        scope: &Path,
        name: &Name,
        object: Object,
        source: Name,
    ) -> Result<(), PassError>
        ensures steps { Ends result (take_step (pass_of self.old) scope.now
            (step name.now (declares (object_view object) (source ∷ []) None))) (pass_of self.new) }
        ensures lower { OnOk result (self.new.lower ≡ self.old.lower) }
    {
        let names = one(self.alloc, source)?;
        self.declare_linked(scope, name, object, names)
    }

    // Declares the units of a Field, whose links search its region.
    fn declare_field(
        &mut self,
        scope: &Path,
        flags: u8,
        region: Name,
        elems: Vec<FieldElem>,
    ) -> Result<(), PassError>
        requires room { list_bits (fields_view elems.items) < 2 ^ 64 }
        ensures steps { Ends result (take_steps (pass_of self.old) scope.now
            (unit_steps FieldForm.Field flags (region ∷ []) 0 (fields_view elems.items)))
            (pass_of self.new) }
        ensures lower { OnOk result (self.new.lower ≡ self.old.lower) }
    {
        let names = one(self.alloc, region)?;
        self.declare_fields(scope, FieldForm::Field, flags, names, elems)
    }

    // Declares the units of an IndexField or a BankField, whose links search two names.
    fn declare_fields_by(
        &mut self,
        scope: &Path,
        form: FieldForm,
        flags: u8,
        first: Name,
        second: Name,
        elems: Vec<FieldElem>,
    ) -> Result<(), PassError>
        requires room { list_bits (fields_view elems.items) < 2 ^ 64 }
        ensures steps { Ends result (take_steps (pass_of self.old) scope.now
            (unit_steps form flags (first ∷ second ∷ []) 0 (fields_view elems.items)))
            (pass_of self.new) }
        ensures lower { OnOk result (self.new.lower ≡ self.old.lower) }
    {
        let names = two(self.alloc, first, second)?;
        self.declare_fields(scope, form, flags, names, elems)
    }

    // Adds the links of the units of a field list.
    fn add_units(
        &mut self,
        scope: &Path,
        names: Vec<Name>,
        segs: Vec<Seg>,
    ) -> Result<(), AllocError>
        ensures units { OnOk result (pass_of self.new
            ≡ pass_with_units self.old names.items scope.now segs.items) }
        ensures lower { OnOk result (self.new.lower ≡ self.old.lower) }
    {
        add_links(&mut self.links, LinkedPaths::Units(segs), scope, names)?;
        Ok(())
    }

    // Declares the units of a field list whose links search these names.
    fn declare_fields(
        &mut self,
        scope: &Path,
        form: FieldForm,
        flags: u8,
        names: Vec<Name>,
        elems: Vec<FieldElem>,
    ) -> Result<(), PassError>
        requires some { names.items ≢ [] }
        requires room { list_bits (fields_view elems.items) < 2 ^ 64 }
        ensures steps { Ends result (take_steps (pass_of self.old) scope.now
            (unit_steps form flags names.items 0 (fields_view elems.items))) (pass_of self.new) }
        ensures lower { OnOk result (self.new.lower ≡ self.old.lower) }
    {
        let mut segs = Vec::new(self.alloc);
        let fields = FieldList {
            form,
            flags,
            names: &names,
        };
        self.declare_units(scope, &fields, &mut segs, elems)?;
        self.add_units(scope, names, segs)?;
        Ok(())
    }
}
