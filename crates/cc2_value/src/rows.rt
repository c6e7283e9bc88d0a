//! Tables as rows of their parts.
ghost use Rattle.std.specs.Prelude.{◌≡◌, length};
ghost use Rattle.cc2_value.specs.Rows.{texts_of, keys_of_fields, looks_of_fields};

use crate::fields::Fields;
use crate::parts::Parts;

/// A table whose fields can be had as a row of parts.
pub trait Rows: Fields {
    /// The parts, in the order of the fields.
    type Row: Parts;

    /// The keys of the fields.
    fn keys() -> &'static [&'static str]
        ensures keys { texts_of result.now ≡ keys_of_fields Self.fields }
        ensures counted { length result.now ≡ Self.Row.count };

    /// The fields of the table.
    fn into_row(self) -> Self::Row
        ensures { Self.Row.shown result ≡ looks_of_fields Self.fields self };
}

/// The body of `Rows::keys`: the keys of these fields.
#[macro_export]
macro_rules! keys {
    (; $($key:literal $field:ident),* $(,)?) => {
        &[$($key),*]
    };
}

/// The body of `Rows::into_row`: these fields in a row.
#[macro_export]
macro_rules! into_row {
    ($own:ident; $ka:literal $a:ident $(,)?) => {
        $crate::One { part: $own.$a }
    };
    ($own:ident; $ka:literal $a:ident, $kb:literal $b:ident $(,)?) => {
        $crate::Pair {
            front: $crate::One { part: $own.$a },
            back: $crate::One { part: $own.$b },
        }
    };
    ($own:ident; $ka:literal $a:ident, $kb:literal $b:ident, $kc:literal $c:ident $(,)?) => {
        $crate::Pair {
            front: $crate::into_row!($own; $ka $a, $kb $b),
            back: $crate::One { part: $own.$c },
        }
    };
    (
        $own:ident; $ka:literal $a:ident, $kb:literal $b:ident, $kc:literal $c:ident, $kd:literal $d:ident $(,)?
    ) => {
        $crate::Pair {
            front: $crate::into_row!($own; $ka $a, $kb $b),
            back: $crate::into_row!($own; $kc $c, $kd $d),
        }
    };
    (
        $own:ident; $ka:literal $a:ident, $kb:literal $b:ident, $kc:literal $c:ident, $kd:literal $d:ident,
        $ke:literal $e:ident, $kf:literal $f:ident, $kg:literal $g:ident, $kh:literal $h:ident, $($more:tt)+
    ) => {
        $crate::Pair {
            front: $crate::Pair {
                front: $crate::into_row!($own; $ka $a, $kb $b, $kc $c, $kd $d),
                back: $crate::into_row!($own; $ke $e, $kf $f, $kg $g, $kh $h),
            },
            back: $crate::into_row!($own; $($more)+),
        }
    };
    (
        $own:ident; $ka:literal $a:ident, $kb:literal $b:ident, $kc:literal $c:ident, $kd:literal $d:ident,
        $($more:tt)+
    ) => {
        $crate::Pair {
            front: $crate::into_row!($own; $ka $a, $kb $b, $kc $c, $kd $d),
            back: $crate::into_row!($own; $($more)+),
        }
    };
}
