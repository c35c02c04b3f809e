//! Laws of the definitions: each function's contract is the law, and its call gives it.
ghost use Rattle.std.specs.Prelude.{◌≡◌, ◌≢◌, IfSome, IsSome};
ghost use Rattle.hash_tree.specs.Chain.{IsGood};
ghost use Rattle.hash_tree.specs.Difference.{IsTopmostDifference, IsCollision, chain_at};
ghost use Rattle.hash_tree.specs.Laws.{LevelsAreLeast, PlacesLieInside, SlotsLieInside, AncestorsAreBlocks, PlacesAreTakenOnce, TreesStandInShape, FormedChainsAreGood, GoodChainsAreWhole, DifferencesCollide, GoodChainsCollide, ForgedBlocksCollide};
ghost use Rattle.hash_tree.specs.Building.{BuildersMakeTheArea};

use crate::{Chain, Place, collide};
use tree_shape::{Digest, Salt, Shape};

/// The number of levels is the least that leaves one block at the top.
pub fn levels_are_least()
    ensures { LevelsAreLeast }
{}

/// Every block's place lies in the area.
pub fn places_lie_inside()
    ensures { PlacesLieInside }
{}

/// Every slot lies inside its hash block.
pub fn slots_lie_inside()
    ensures { SlotsLieInside }
{}

/// The block above a data block is one of its level.
pub fn ancestors_are_blocks()
    ensures { AncestorsAreBlocks }
{}

/// Each block of the area is stored at exactly one place.
pub fn places_are_taken_once()
    ensures { PlacesAreTakenOnce }
{}

/// The place that a shape gives is the block's place in the area's list.
pub fn trees_stand_in_shape()
    ensures { TreesStandInShape }
{}

/// The blocks that a builder puts out are those of the area, each once and at its place, and it gives the root.
pub fn builders_make_the_area()
    ensures { BuildersMakeTheArea }
{}

/// The chain formed of a data block is good under the root.
pub fn formed_chains_are_good()
    ensures { FormedChainsAreGood }
{}

/// A good chain has as many hash blocks, and blocks of such sizes, as the shape says.
pub fn good_chains_are_whole()
    ensures { GoodChainsAreWhole }
{}

/// Where two good chains of one root first differ, two different blocks have one digest.
pub fn differences_collide()
    ensures { DifferencesCollide }
{}

/// Two good chains of one root and index that are not equal name two different blocks with one digest.
pub fn good_chains_collide()
    ensures { GoodChainsCollide }
{}

/// A good chain with another content than the data under the root names two different blocks with one digest.
pub fn forged_blocks_collide()
    ensures { ForgedBlocksCollide }
{}

/// At the place that `collide` names for two chains that are good under one root, there are two different blocks
/// with one digest.
pub fn collision(
    shape: &Shape,
    salt: &Salt,
    root: &Digest,
    expected: &Chain,
    got: &Chain,
) -> Option<Place>
    requires expected { IsGood shape.now salt.now root.now expected.now }
    requires got { IsGood shape.now salt.now root.now got.now }
    ensures topmost { IfSome result (λ place. IsTopmostDifference expected.now got.now place) }
    ensures collision { IfSome result (λ place. IsCollision salt.now (chain_at expected.now place) (chain_at got.now place)) }
    ensures found { expected.now.index ≡ got.now.index → expected.now.content ≢ got.now.content → IsSome result }
{
    collide(expected, got)
}
