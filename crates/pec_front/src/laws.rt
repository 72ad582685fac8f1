//! What the encoding is for.
//!
//! Boxes fit by valuations: whatever bits the inputs have, where both circuits' gates have their
//! values and the boxes are filled, outputs agree. For boxes in a cycle there may be no such
//! values, so that their order is asked beside it.
ghost use Rattle.pec_front.specs.Rows.{BoxesExtendEveryRow, FitsByRows};
ghost use Rattle.pec_front.specs.Latest.{LatestShowsOrder};
ghost use Rattle.pec_front.specs.Choices.{ChoicesFillBoxes, ChosenBoxesFit};
ghost use Rattle.pec_front.specs.Laws.{FittingBoxesChoose, DesignFormulasAreWellFormed, EncodingIsFaithful};
ghost use Rattle.pec_front.specs.Outputs.{OutputsAreBoxes, CertifiedBoxesFit};

use circuit_plain::laws::{
    grounded_have_values, valuations_agree, values_are_unique, values_follow_reach,
};
use dq_lits::laws::{choices_extend_every_row, functions_are_choices};
use skolem_checker::laws::outputs_are_skolem_functions;

/// Where a choice solves the formula, and its functions fill the boxes, the outputs agree.
pub fn choices_fill_boxes()
    ensures { ChoicesFillBoxes }
{
    choices_extend_every_row();
    grounded_have_values();
    valuations_agree();
}

/// A choice that solves the formula has functions that fit.
pub fn chosen_boxes_fit()
    ensures { ChosenBoxesFit }
{
    choices_fill_boxes();
}

/// Boxes that stand in order can be filled in every row, whatever their functions.
pub fn boxes_extend_every_row()
    ensures { BoxesExtendEveryRow }
{
    grounded_have_values();
    values_are_unique();
    values_follow_reach();
}

/// Functions that fit make the design's formula true.
pub fn fitting_boxes_choose()
    ensures { FittingBoxesChoose }
{
    functions_are_choices();
    grounded_have_values();
    values_are_unique();
    values_follow_reach();
}

/// A design's formula is well formed.
pub fn design_formulas_are_well_formed()
    ensures { DesignFormulasAreWellFormed }
{}

/// A design's formula is true exactly where some functions fit.
pub fn encoding_is_faithful()
    ensures { EncodingIsFaithful }
{
    fitting_boxes_choose();
    chosen_boxes_fit();
    design_formulas_are_well_formed();
}

/// Functions fit exactly where in each row of the inputs the outputs agree, with the further inputs
/// by these functions.
pub fn fits_by_rows()
    ensures { FitsByRows }
{
    boxes_extend_every_row();
    grounded_have_values();
    values_follow_reach();
    valuations_agree();
}

/// Skolem functions of a design's formula have functions that fit at the driven inputs.
pub fn outputs_are_boxes()
    ensures { OutputsAreBoxes }
{
    functions_are_choices();
    chosen_boxes_fit();
    design_formulas_are_well_formed();
}

/// The outputs of a circuit that certifies a design's formula are, at the driven inputs, functions
/// that fit.
pub fn certified_boxes_fit()
    ensures { CertifiedBoxesFit }
{
    design_formulas_are_well_formed();
    outputs_are_skolem_functions();
    outputs_are_boxes();
}

/// Boxes stand in order exactly where the latest box that each reads from stands before it.
pub fn latest_shows_order()
    ensures { LatestShowsOrder }
{}
