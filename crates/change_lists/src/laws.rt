// What follows from the definitions alone.
ghost use Rattle.std.specs.Prelude.{◌≡◌, List};
ghost use Rattle.std.specs.Cmp.{IsTotalOrder};
ghost use Rattle.cloud_base.specs.declared.schema.Schema.{Schema};
ghost use Rattle.cloud_base.specs.declared.update.Update.{Update};
ghost use Rattle.fj_array.specs.Effects.{effect_order};
ghost use Rattle.fj_entity.specs.Rosters.{created_order};
ghost use Rattle.change_lists.specs.Effects.{IsEffect};
ghost use Rattle.change_lists.specs.Images.{IsImage};
ghost use Rattle.change_lists.specs.Lists.{ChangeLists, ImageLists, IsChangeLists, IsImageLists};
ghost use Rattle.change_lists.specs.Lists.{value_order};

/// What was done in a log after a log is one change, and its lists are those of a change.
pub fn one_effect()
    ensures one { (schema : Schema) (base delta : List Update) (change other : ChangeLists) →
        IsEffect schema base delta change → IsEffect schema base delta other → change ≡ other }
    ensures ordered { (schema : Schema) (base delta : List Update) (change : ChangeLists) →
        IsEffect schema base delta change → IsChangeLists change }
{
    cloud_base::total_orders();
    fj_array::cell_orders();
}

/// A log comes to one image, and its lists are those of an image.
pub fn one_image()
    ensures one { (schema : Schema) (log : List Update) (image other : ImageLists) →
        IsImage schema log image → IsImage schema log other → image ≡ other }
    ensures ordered { (schema : Schema) (log : List Update) (image : ImageLists) →
        IsImage schema log image → IsImageLists image }
{
    cloud_base::total_orders();
    fj_array::cell_orders();
}

/// The orders of created ids, effects and values are total.
pub fn total_list_orders()
    ensures created { IsTotalOrder created_order }
    ensures effects { IsTotalOrder effect_order }
    ensures values { IsTotalOrder value_order }
{
    cloud_base::total_orders();
    fj_array::cell_orders();
}
