//! Scenes in JSON.

ghost use Rattle.serde_json.specs.View.{view};
ghost use Rattle.tui_json.specs.Refusals.{Gives};
ghost use Rattle.tui_schema.specs.Refusals.{as_input};
ghost use Rattle.tui_schema.specs.Scene.{reading_data, scene_of};

use crate::bad_field::BadField;
use crate::error::SceneError;
use crate::field::Field;
use serde_json::Value;
use std::alloc::Global;
use tui_json::{Counted, InputError, Within, each_numbered, required};
use tui_scene::{Placed, Scene};

/// A scene and its size. Its strings are borrowed from the JSON value.
pub struct Reading<'v> {
    /// In columns, from 1 to 1000.
    pub width: u16,
    /// In rows, from 1 to 1000.
    pub height: u16,
    /// The widgets, in the order in which they are drawn.
    pub scene: Scene<'v>,
}

// Written by hand, so that dependent crates need no proofs about dropping the fields.
impl<'v> Drop for Reading<'v> {
    fn drop(self) {
        let Reading {
            width,
            height,
            scene,
        } = self;
    }
}

/// Reads a scene from a JSON value. Fails at the first field, in the order of the schema's tables, that is missing
/// though required, or whose value is not of its kind. If it is a field of an item, the error has the number of the
/// item, from 0.
#[tactic(auto, unfolding(crate::specs::Scene::scene_of))]
pub fn read_scene<'v>(alloc: Global, value: &'v Value) -> Result<Reading<'v>, InputError<BadField>>
    ensures { Gives reading_data result (scene_of (view value.now)) }
{
    let Within(width): Within<1, 1000> = required(alloc, None, Field::Width, value)?;
    let Within(height): Within<1, 1000> = required(alloc, None, Field::Height, value)?;
    let Counted(values): Counted<'v, 0, 256> = required(alloc, None, Field::Items, value)?;
    let items: Vec<Placed<'v>> = each_numbered::<Placed<'v>, Field>(alloc, (), values)?;
    Ok(Reading {
        width,
        height,
        scene: Scene::from(items),
    })
}

/// Reads a scene from a JSON value, with the tests of `read_scene`.
pub fn scene_of<'v>(alloc: Global, value: &'v Value) -> Result<Reading<'v>, SceneError>
    ensures { Gives reading_data (as_input result) (scene_of (view value.now)) }
{
    Ok(read_scene(alloc, value)?)
}
