// What the list of a sheet is changed by. Knows nothing of sheets.

/// A setting of line and theme that is asked for: the line raised by `jv` keys, and begun at the place `entry`.
/// It names a combination only if both numbers are in range.
#[derive(Clone, Copy, PartialEq, Eq, Hash, Debug)]
pub struct Setting {
    pub jv: i32,
    pub entry: i32,
}
