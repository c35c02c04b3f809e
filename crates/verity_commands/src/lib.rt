//! The commands on verity images by their arguments, comparing two of their hash trees, and scanning one.
#![tactic(auto)]

mod checked_diff;
mod checked_object;
mod diff;
mod diff_object;
mod formatting;
mod growing;
mod invoke;
mod paths;
mod placed;
mod placed_diff;
mod places;
mod sought_trees;
mod status;
mod survey;
mod survey_chart;
mod survey_object;
mod texts;
mod tree_fault;
mod tree_fault_text;
mod tree_pair;
mod trees;
mod verity_fault;

pub use checked_diff::CheckedTotals;
pub use diff::DiffForm;
pub use formatting::{invoke_format, make_image, places_of, print_made};
pub use invoke::{invoke_diff, invoke_survey};
pub use paths::HashPlaces;
pub use placed::{invoke_dump, invoke_table, invoke_verify};
pub use placed_diff::diff_images;
pub use places::{sector_at, trusted_in};
pub use sought_trees::both_sought_in;
pub use status::verity_status;
pub use survey::{SurveyOrder, is_all_good, say_totals, survey_images};
pub use texts::{say_image_fault, say_verity_fault};
pub use tree_fault::TreeFault;
pub use tree_fault_text::{say_tree_fault, tree_status};
pub use tree_pair::{SoughtTrees, TreeStarts};
pub use trees::{
    invoke_table_tree, invoke_tree_survey, invoke_verify_tree, sought_in, sought_tree_in,
};
pub use verity_fault::VerityFault;
