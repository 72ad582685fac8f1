//! What the definitions of `specs/` prove about one another. Each law is the contract of a function
//! without parameters and with an empty body.

ghost use Rattle.definition_export.specs.Exporting.{ProductiveDefinitionsCanExport};

/// In a log of productive work for a formula every answer that shows a definition over copies of
/// declared variables can be exported.
pub fn productive_definitions_can_be_exported()
    ensures { ProductiveDefinitionsCanExport }
{}
