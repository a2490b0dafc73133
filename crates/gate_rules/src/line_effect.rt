use crate::{Assigned, Rule};

/// What a line says to a service.
#[derive(Drop)]
pub enum LineEffect {
    Nothing,
    Ruled(Rule),
    Set(Assigned),
}
