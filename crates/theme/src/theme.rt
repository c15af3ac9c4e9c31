// A theme in memory: room for 64 places, reserved once, so that no page read later can want memory.
// Knows nothing of pages.
ghost use Rattle.std.specs.Prelude.{◌≡◌, ◌<◌, ◌≤◌, ◌==◌, true, length, IfOk};
ghost use Rattle.std.specs.List.{slice_get};
ghost use Rattle.theme.specs.Themes.{blank_or_lawful, blank_theme};

use super::place::Place;
use std::alloc::{AllocError, Global};
use std::marker::Model;

/// The most places that a theme has.
pub const MOST_PLACES: usize = 64;

// A blank theme is no `Option` of a theme: the memory is asked for once, before there is a theme.
/// A theme, blank until a page is read into it.
#[derive(Drop)]
pub struct Theme {
    pub(crate) places: Vec<Place>,
    pub(crate) bar: usize,
}

// Contracts see the plain theme.
impl Model for Theme {
    ghost use Rattle.std.specs.Prelude.{◌≡◌, ◌≤◌, true, vec_capacity};
    ghost use Rattle.theme.specs.Themes.{PlainTheme, blank_or_lawful};

    ghost Value = { PlainTheme };

    ghost view = { λ t. record { places = t.places.items; bar = t.bar } };

    ghost invariant = { λ t. (64 ≤ vec_capacity t.places) × (blank_or_lawful t.places.items t.bar ≡ true) };
}

impl Theme {
    /// No theme yet, with the memory for any; only this call can fail for want of it.
    pub fn blank(heap: Global) -> Result<Theme, AllocError>
        ensures { IfOk result (λ t. t ≡ blank_theme) }
    {
        let places = Vec::with_capacity(heap, MOST_PLACES)?;
        Ok(Theme { places, bar: 0 })
    }

    /// The number of places, 0 where no page has been read.
    pub fn len(&self) -> usize
        ensures value { result ≡ length self.now.places }
        ensures few { result ≤ 64 }
    {
        self.places.len()
    }

    /// Whether no page has been read yet.
    pub fn is_empty(&self) -> bool
        ensures value { result ≡ (length self.now.places == 0) }
        ensures lawful { blank_or_lawful self.now.places self.now.bar ≡ true }
    {
        self.places.is_empty()
    }

    /// The bar length, 0 where no page has been read.
    pub fn bar(&self) -> usize
        ensures value { result ≡ self.now.bar }
        ensures some { 0 < length self.now.places → 0 < result }
        ensures lawful { blank_or_lawful self.now.places self.now.bar ≡ true }
    {
        self.bar
    }

    /// The place with this number, if there is one.
    pub fn place(&self, number: usize) -> Option<Place>
        ensures value { result ≡ slice_get self.now.places number }
        ensures lawful { blank_or_lawful self.now.places self.now.bar ≡ true }
    {
        self.places.get(number).copied()
    }
}
