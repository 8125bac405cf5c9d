//! How contents compare with those that were seen first.

/// How contents compare with those that were seen first of an LSP ID and number.
#[derive(Clone, Copy, Debug, PartialEq, Eq)]
pub(crate) enum Look {
    New,
    Same,
    Other,
}
