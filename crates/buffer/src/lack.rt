// Why a field has no value.

// No token, or no octet, is left for it, which is refusal 8; or what stands there is no value of the field, which is refusal 9.
#[derive(Clone, Copy, PartialEq, Eq)]
pub enum Lack {
    Missing,
    Fault,
}
