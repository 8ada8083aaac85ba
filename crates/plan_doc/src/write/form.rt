// The parts of claims and snapshots, as they are written.

ghost use Rattle.plan_doc.specs.Written.{placement_data, telescope_data};
ghost use Rattle.plan_doc.specs.Written.{sky_data, request_data, group_data};

use plan_base::{GroupPart, Placement, RequestPart, Sky, TelescopePart};
use plan_json::{Each, Form, Json, above_0, object};
use std::alloc::AllocError;

/// Each part of a claim and of a snapshot in the one form that it has in a document.
#[derive(Drop)]
pub struct InDocument;

impl Form<Placement> for InDocument {
    ghost value_of = { λ _. placement_data };

    ghost levels = { 1 };

    #[inline]
    fn write_value(&self, placement: &Placement, out: &mut Vec<u8>) -> Result<(), AllocError> {
        (
            placement.request.0,
            placement.telescope.0,
            placement.slice.0,
        )
            .write(out)
    }
}

impl Form<TelescopePart> for InDocument {
    ghost value_of = { λ _. telescope_data };

    ghost levels = { 3 };

    fn write_value(&self, telescope: &TelescopePart, out: &mut Vec<u8>) -> Result<(), AllocError> {
        object!("site": telescope.site.0, "usable": &telescope.usable).write(out)
    }
}

impl Form<Sky> for InDocument {
    ghost value_of = { λ _. sky_data };

    ghost levels = { 3 };

    fn write_value(&self, sky: &Sky, out: &mut Vec<u8>) -> Result<(), AllocError> {
        object!("site": sky.site.0, "spans": &sky.spans, "target": sky.target.0).write(out)
    }
}

impl Form<RequestPart> for InDocument {
    ghost value_of = { λ _. request_data };

    ghost levels = { 3 };

    fn write_value(&self, request: &RequestPart, out: &mut Vec<u8>) -> Result<(), AllocError> {
        let fade = above_0(request.fade);
        object!(
            "fade"?: &fade,
            "request": request.request.0,
            "seconds": request.seconds,
            "targets": &request.targets,
            "telescopes": &request.telescopes,
            "value": request.value,
            "windows": &request.windows,
        )
        .write(out)
    }
}

impl Form<GroupPart> for InDocument {
    ghost value_of = { λ _. group_data };

    ghost levels = { 5 };

    fn write_value(&self, group: &GroupPart, out: &mut Vec<u8>) -> Result<(), AllocError> {
        object!(
            "group": group.group.0,
            "operator": group.op,
            "quota"?: &group.quota,
            "requests": Each { form: InDocument, items: &group.requests },
        )
        .write(out)
    }
}
