/// One case for each base kind. Whole numbers call `$signed` or `$unsigned` at the width of the kind
/// in bytes; the other kinds have cases of their own.
#[macro_export]
macro_rules! by_width {
    (
        $base:expr, $signed:ident, $unsigned:ident, $arguments:tt,
        $($kind:ident => $value:expr),+ $(,)?
    ) => {
        match $base {
            $crate::Base::I8 => $signed::<1> $arguments,
            $crate::Base::I16 => $signed::<2> $arguments,
            $crate::Base::I32 => $signed::<4> $arguments,
            $crate::Base::I64 => $signed::<8> $arguments,
            $crate::Base::U64 => $unsigned::<8> $arguments,
            $crate::Base::I128 => $signed::<16> $arguments,
            $($crate::Base::$kind => $value,)+
        }
    };
}
