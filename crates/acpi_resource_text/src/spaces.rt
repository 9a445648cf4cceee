//! Ranges of addresses as people write them (ACPI 6.5, 6.4.3.5).

use crate::resources::{Draft, ResourceKind, put_known};
use acpi_infix::put_constant;
use acpi_overview::{Resource, Resources};
use acpi_overview_text::put_size;
use acpi_phrases::put_span;
use acpi_resources::{AddressKind, AddressSpace, AddressWidth, ExtendedAddressSpace};
use std::alloc::Global;
use text_buffer::Text;

/// What the address spaces of all widths say, and which of the numbers code sets.
#[derive(Drop)]
pub(crate) struct Space {
    kind: AddressKind,
    flags: u8,
    kind_flags: u8,
    min: (u64, bool),
    max: (u64, bool),
    translation: (u64, bool),
    length: (u64, bool),
}

impl Space {
    /// The space of a descriptor in whose bytes the numbers begin, each of a width.
    pub(crate) fn of(
        space: &AddressSpace<'_>,
        resources: &Resources<'_>,
        resource: &Resource<'_>,
    ) -> Space {
        let width = match space.width {
            AddressWidth::Word => 2usize,
            AddressWidth::DWord => 4,
            AddressWidth::QWord => 8,
        };
        let is_written = |i: usize| resources.is_written(resource, 6 + i * width, width);
        Space {
            kind: space.resource(),
            flags: space.flags,
            kind_flags: space.kind_flags,
            min: (space.min, is_written(1)),
            max: (space.max, is_written(2)),
            translation: (space.translation, is_written(3)),
            length: (space.length, is_written(4)),
        }
    }

    /// The space of a descriptor with attributes.
    pub(crate) fn of_extended(space: &ExtendedAddressSpace) -> Space {
        Space {
            kind: space.resource(),
            flags: space.flags,
            kind_flags: space.kind_flags,
            min: (space.min, false),
            max: (space.max, false),
            translation: (space.translation, false),
            length: (space.length, false),
        }
    }

    fn is_by_code(&self) -> bool {
        self.min.1 || self.max.1 || self.length.1
    }

    // Whether neither bound may be moved.
    fn is_fixed(&self) -> bool {
        self.flags / 4 % 4 == 3
    }

    fn resource_kind(&self) -> ResourceKind {
        match self.kind {
            AddressKind::Memory => ResourceKind::Memory,
            AddressKind::Io => ResourceKind::Ports,
            AddressKind::Bus => ResourceKind::Bus,
            AddressKind::Other(_) => ResourceKind::Other,
        }
    }

    // Puts the bounds into both texts.
    fn put_bounds(&self, draft: &mut Draft) {
        if self.is_by_code() {
            draft.is_by_code = true;
            put_known(&mut draft.full, self.min.0, self.min.1);
            put_known(&mut draft.short, self.min.0, self.min.1);
            draft.put_both("-");
            put_known(&mut draft.full, self.max.0, self.max.1);
            put_known(&mut draft.short, self.max.0, self.max.1)
        } else if (self.min.0, self.max.0, self.length.0) == (0, 0, 0) {
            draft.put_both("none")
        } else {
            put_span(&mut draft.full, self.min.0, self.max.0);
            put_span(&mut draft.short, self.min.0, self.max.0);
            if self.length.0 > 0 {
                draft.range = Some((self.min.0, self.max.0));
            }
        }
    }

    // Puts the length, and whether it isn't that between the bounds.
    fn put_length(&self, text: &mut Text) {
        if self.length.1 || self.kind == AddressKind::Bus {
            return;
        }
        text.put(" (");
        put_size(text, self.length.0);
        let between = self.max.0.saturating_sub(self.min.0).saturating_add(1);
        let is_none = (self.min.0, self.max.0, self.length.0) == (0, 0, 0);
        if !self.is_by_code() && !is_none && self.is_fixed() && between != self.length.0 {
            text.put(" by its length");
        }
        text.put(")")
    }

    // Puts what the flags say of memory.
    fn put_memory_flags(&self, text: &mut Text) {
        if self.kind != AddressKind::Memory {
            return;
        }
        text.put(match self.kind_flags / 2 % 4 {
            0 => ", uncached",
            1 => ", cached",
            2 => ", write-combining",
            _ => ", prefetchable",
        });
        text.put(if self.kind_flags % 2 == 1 {
            " read-write"
        } else {
            " read-only"
        })
    }

    /// Its texts, where it may be that of a bridge.
    pub(crate) fn draft(&self, alloc: Global, is_bridge: bool) -> Draft {
        let mut draft = Draft::new(alloc, self.resource_kind());
        draft.is_window = is_bridge
            && self.flags % 2 == 0
            && !matches!(self.kind, AddressKind::Bus);
        if draft.is_window {
            draft.full.put("window ");
        }
        match self.kind {
            AddressKind::Other(number) => {
                draft.put_both("type ");
                put_constant(&mut draft.full, u64::from(number));
                put_constant(&mut draft.short, u64::from(number));
                draft.put_both(" ");
            }
            _ => {
                draft.full.put(draft.kind.word());
                draft.full.put(" ");
            }
        }
        self.put_bounds(&mut draft);
        self.put_length(&mut draft.full);
        self.put_memory_flags(&mut draft.full);
        if self.translation.1 || self.translation.0 != 0 {
            draft.full.put(", translation ");
            put_known(&mut draft.full, self.translation.0, self.translation.1);
        }
        if self.flags / 2 % 2 == 1 {
            draft.full.put(", subtractive");
        }
        if !self.is_fixed() {
            draft.full.put(", movable");
        }
        draft
    }
}
