//! What the program answers of a history.

ghost use Rattle.std.specs.Prelude.{◌≡◌, ◌<◌, ◌⊎◌, IfErr, IfOk, IsErrOf};
ghost use Rattle.history_picture.specs.Picture.{IsPageOf, IsPictureOf};
ghost use Rattle.unicheck_run.specs.Found.{status_of, verdict};
ghost use Rattle.unicheck_run.specs.Judged.{BeginsWithLine, Draws, IsTooLarge, Says, Shows, calls_of};
ghost use Rattle.unicheck_run.specs.Stopped.{status_of_stop};

use crate::judging::{Finding, judge};
use crate::picture::scene_of;
use crate::report::{first_bad_text, order_text, verdict};
use crate::stop::Stop;
use crate::watch::Watch;
use crate::words::{Form, Request};
use history_picture::{PictureError, page_of_scene, svg_of_scene};
use history_text::History;
use judged_objects::Worded;
use std::alloc::{AllocError, Global};

/// What the program answers: the status that it ends with, and what it writes.
#[derive(Drop)]
pub(crate) struct Answer {
    pub(crate) status: u8,
    pub(crate) text: Vec<u8>,
}

/// The status of a finding.
fn status_of(finding: &Finding) -> u8
    ensures status { result ≡ status_of finding.now }
    ensures statuses { (result < 2) ⊎ (result ≡ 5) }
{
    match finding {
        Finding::Linearizable(_) => 0,
        Finding::NotLinearizable(_) => 1,
        Finding::GaveUp => 5,
    }
}

/// What is written of a finding after its first line.
fn details_of<O: Worded>(
    alloc: Global,
    object: &O,
    request: Request,
    lines: &[&[u8]],
    history: &History<O::Inv, O::Resp>,
    finding: &Finding,
) -> Result<Vec<u8>, AllocError> {
    match finding {
        Finding::Linearizable(order) if request.form == Form::Order => {
            order_text::<O>(alloc, lines, history, order.as_slice())
        }
        Finding::NotLinearizable(Some(place)) => {
            first_bad_text(alloc, object, lines, history, *place, request.rounds)
        }
        _ => Ok(Vec::new(alloc)),
    }
}

/// A finding in lines.
fn lines_of<O: Worded>(
    alloc: Global,
    object: &O,
    request: Request,
    lines: &[&[u8]],
    history: &History<O::Inv, O::Resp>,
    finding: &Finding,
) -> Result<Vec<u8>, AllocError>
    ensures { IfOk result (λ text. BeginsWithLine (verdict (status_of finding.now)) text.items) }
{
    let details = details_of(alloc, object, request, lines, history, finding)?;
    let mut text = Vec::from_slice(alloc, verdict(finding).as_bytes())?;
    text.push(b'\n')?;
    text.extend_from_slice(details.as_slice())?;
    Ok(text)
}

/// The picture of a history, or a page with it.
fn picture_of<O: Worded>(
    alloc: Global,
    object: &O,
    request: Request,
    lines: &[&[u8]],
    history: &History<O::Inv, O::Resp>,
    finding: &Finding,
) -> Result<Vec<u8>, PictureError>
    ensures picture { IfOk result (λ svg. request.form ≡ Form.Svg
        → Draws IsPictureOf (verdict (status_of finding.now)) svg.items) }
    ensures page { IfOk result (λ page. request.form ≡ Form.Html
        → Draws IsPageOf (verdict (status_of finding.now)) page.items) }
    ensures many { IsErrOf result PictureError.TooManyCalls → 400 < calls_of history.now.events.items }
{
    let scene = scene_of(alloc, object, lines, history, finding, request.rounds)?;
    match request.form {
        Form::Html => page_of_scene(alloc, &scene),
        _ => svg_of_scene(alloc, &scene),
    }
}

/// A finding of a history that was read from a text, in the form that is asked for.
fn text_of<O: Worded>(
    alloc: Global,
    object: &O,
    request: Request,
    text: &[u8],
    history: &History<O::Inv, O::Resp>,
    finding: &Finding,
) -> Result<Vec<u8>, Stop>
    ensures shown { IfOk result (λ text. Shows request.form (verdict (status_of finding.now)) text.items) }
    ensures refused { IfErr result (λ why. status_of_stop why ≡ 2
        → IsTooLarge request.form (calls_of history.now.events.items)) }
{
    let lines: Vec<&[u8]> = text.split(|byte| *byte == b'\n').collect(alloc)?;
    let lines = lines.as_slice();
    match request.form {
        Form::Lines | Form::Order => {
            Ok(lines_of(alloc, object, request, lines, history, finding)?)
        }
        Form::Svg | Form::Html => Ok(picture_of(alloc, object, request, lines, history, finding)?),
    }
}

/// What is answered of a history that was read from a text.
///
/// An `Err` says that there are too many calls for a picture, or that memory was refused.
pub(crate) fn answer_of<O: Worded, P: Watch>(
    alloc: Global,
    object: &O,
    request: Request,
    text: &[u8],
    history: &History<O::Inv, O::Resp>,
    watch: &P,
) -> Result<Answer, Stop>
    ensures statuses { IfOk result (λ answer. (answer.status < 2) ⊎ (answer.status ≡ 5)) }
    ensures said { IfOk result (λ answer. Says (O.sequential object.now) history.now.events.items answer.status) }
    ensures shown { IfOk result (λ answer. Shows request.form (verdict answer.status) answer.text.items) }
    ensures refused { IfErr result (λ why. status_of_stop why ≡ 2
        → IsTooLarge request.form (calls_of history.now.events.items)) }
{
    let events = history.events.as_slice();
    let finding = judge(alloc, object, events, request.rounds, watch)?;
    let text = text_of(alloc, object, request, text, history, &finding)?;
    Ok(Answer {
        status: status_of(&finding),
        text,
    })
}
