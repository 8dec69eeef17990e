//! The bodies of containers, field by field: macros for the types above, whose definitions name the same fields.
//!
//! What they expand to is proved where they are called.

/// Reads a container: `read_container!(alloc, bytes, Checkpoint { epoch: u64, root: Root })`. Each part of the bytes is
/// read as its field's type (simple-serialize.md, "Deserialization").
#[macro_export]
macro_rules! read_container {
    ($alloc:ident, $bytes:ident, $name:ident { $($field:ident: $type:ty),+ $(,)? }) => {{
        let mut fields = [$($crate::place_of_field!($crate::Field::Variable, $field)),+];
        let mut parts = [$($crate::place_of_field!($bytes, $field)),+];
        match $crate::read_row::<$crate::row_type!($($type,)+)>($alloc, $bytes, &mut fields, &mut parts) {
            Ok(row) => {
                let $crate::row_of!($($field)+) = row;
                Ok($name { $($field),+ })
            }
            Err(fault) => Err(fault),
        }
    }};
}

/// The pattern of a row of these values.
#[macro_export]
macro_rules! row_of {
    () => { () };
    ($first:ident $($more:ident)*) => { ($first, $crate::row_of!($($more)*)) };
}

/// The type of a row of values of these types.
#[macro_export]
macro_rules! row_type {
    () => { () };
    ($first:ty, $($more:ty,)*) => { ($first, $crate::row_type!($($more,)*)) };
}

/// What stands in the place of a field before it is looked at.
#[macro_export]
macro_rules! place_of_field {
    ($place:expr, $field:ident) => {
        $place
    };
}

/// Writes pieces one behind another: `write_pieces!(out, &self.slot, Offset(12), &self.body)`.
#[macro_export]
macro_rules! write_pieces {
    ($out:ident, $($piece:expr),+ $(,)?) => {
        $crate::Pieces::put_all(&$crate::pieces_of!($($piece),+), $out)
    };
}

/// These pieces.
#[macro_export]
macro_rules! pieces_of {
    () => { () };
    ($first:expr $(, $more:expr)*) => { ($first, $crate::pieces_of!($($more),*)) };
}

/// Writes a container of fixed size: `write_container!(self, out, epoch, root)`.
#[macro_export]
macro_rules! write_container {
    ($value:expr, $out:ident, $($field:ident),+ $(,)?) => {
        $crate::write_pieces!($out, $(&$value.$field),+)
    };
}

/// Writes a container with variable parts, whose fixed part has that length:
/// `write_variable_container!(self, out, 8, attestation_1, attestation_2)`.
#[macro_export]
macro_rules! write_variable_container {
    ($value:expr, $out:ident, $fixed_length:literal, $($field:ident),+ $(,)?) => {
        $crate::append_fields(&$crate::pieces_of!($(&$value.$field),+), $fixed_length, $out)
    };
}

/// The root of a container: `root_of_container!(self, epoch, root)`.
#[macro_export]
macro_rules! root_of_container {
    ($value:expr, $($field:ident),+ $(,)?) => {
        hash_tree::fields_root(&[$(hash_tree::Leaf::root(&$value.$field)),+])
    };
}
