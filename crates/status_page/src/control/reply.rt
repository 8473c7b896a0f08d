//! The responses to requests for the gains.
ghost use Rattle.std.specs.Prelude.{◌≡◌, [], ◌∷◌, ◌++◌, OnOk, IfOk, codes};
ghost use Rattle.http_server.specs.Response.{IsBlank, IsResponse, fields_of};
ghost use Rattle.json.specs.Print.{print};
ghost use Rattle.gain_mix.specs.Gain.{rows_of};
ghost use Rattle.status_page.specs.ControlFaults.{
  IsFault,
  IsWithoutToken,
  IsWrongMethod,
  json_fields,
};
ghost use Rattle.status_page.specs.GainReplies.{
  IsShownReply,
  IsTakenReply,
  number_tokens,
  planned_tokens,
  row_tokens,
  rows_tokens,
  shown_in,
  shown_of,
  shown_tokens,
  taken_in,
  taken_of,
  taken_tokens,
  time_member,
  time_members,
};
ghost use Rattle.status_page.specs.State.{array_tokens};

use crate::control::RequestOutcome;
use crate::control::fault::ControlFault;
use crate::control::shape::GainShape;
use crate::page::{add_fields, shared};
use bytes::Bytes;
use http::{HeaderName, HeaderValue, StatusCode};
use http_server::Response;
use json::Writer;
use std::alloc::{AllocError, Global};
use studio_io::GainAnswer;

/// The times of an answer that shows gains.
#[derive(Clone, Copy, PartialEq, Eq)]
pub(crate) struct ShownTimes {
    /// The time at which the gains are in force.
    pub(crate) at: i64,
    /// The first time whose gains could still change.
    pub(crate) next_block_start: i64,
}

/// Returns the time from which the gains of a change are in force, or the reason why it was refused.
pub(crate) fn taken_in(answer: RequestOutcome) -> Result<i64, ControlFault>
    ensures { result ≡ taken_in answer }
{
    match answer {
        RequestOutcome::Answered { answer, .. } => taken_of(answer),
        RequestOutcome::NoAnswer => Err(ControlFault::NoAnswer),
    }
}

/// Returns the time from which the gains of a change are in force, or the reason why the run refused it.
fn taken_of(answer: GainAnswer) -> Result<i64, ControlFault>
    ensures { result ≡ taken_of answer }
{
    match answer {
        GainAnswer::Taken(at) => Ok(at),
        GainAnswer::Refused(fault) => Err(ControlFault::of(fault)),
        GainAnswer::Shown(_) => Err(ControlFault::NoAnswer),
    }
}

/// Returns the times of an answer that shows gains, or the reason why none are shown.
pub(crate) fn shown_in(answer: RequestOutcome) -> Result<ShownTimes, ControlFault>
    ensures { result ≡ shown_in answer }
{
    match answer {
        RequestOutcome::Answered {
            answer,
            next_block_start,
        } => shown_of(answer, next_block_start),
        RequestOutcome::NoAnswer => Err(ControlFault::NoAnswer),
    }
}

/// Returns the times of an answer that shows gains, or the reason why the run shows none.
fn shown_of(answer: GainAnswer, next_block_start: i64) -> Result<ShownTimes, ControlFault>
    ensures { result ≡ shown_of answer next_block_start }
{
    match answer {
        GainAnswer::Shown(at) => Ok(ShownTimes {
            at,
            next_block_start,
        }),
        GainAnswer::Refused(fault) => Err(ControlFault::of(fault)),
        GainAnswer::Taken(_) => Err(ControlFault::NoAnswer),
    }
}

/// Writes the response to a request for a change. Returns `AllocError` if an allocation fails.
pub(crate) fn write_taken(
    alloc: Global,
    reply: Result<i64, ControlFault>,
    response: &mut Response,
) -> Result<(), AllocError>
    requires { IsBlank response.old }
    ensures { OnOk result (IsTakenReply reply response.new) }
{
    match reply {
        Ok(at) => show(taken_json(alloc, at)?, response),
        Err(fault) => refuse(fault, response),
    }
}

/// Writes the response to a request for the gains. Returns `AllocError` if an allocation fails.
pub(crate) fn write_shown(
    alloc: Global,
    shape: GainShape,
    reply: Result<ShownTimes, ControlFault>,
    planned: &[i64],
    gains: &[i32],
    response: &mut Response,
) -> Result<(), AllocError>
    requires { IsBlank response.old }
    ensures { OnOk result (IsShownReply shape.outs shape.ins reply planned.now gains.now response.new) }
{
    match reply {
        Ok(times) => show(shown_json(alloc, shape, times, planned, gains)?, response),
        Err(fault) => refuse(fault, response),
    }
}

/// Writes a refusal into a response. Returns `AllocError` if an allocation fails.
pub(crate) fn refuse(fault: ControlFault, response: &mut Response) -> Result<(), AllocError>
    requires { IsBlank response.old }
    ensures { OnOk result (IsFault fault response.new) }
{
    response.status = fault.status();
    add_json_fields(response)?;
    response
        .body
        .push(Bytes::from_static(fault.text().as_bytes()))
}

/// The body of the response to a request without the token.
const WITHOUT_TOKEN: &str = "{\"fault\":\"token\"}";

/// Writes the response to a request without the token, or with another one: 401, with the scheme of the token.
pub(crate) fn ask_for_token(response: &mut Response) -> Result<(), AllocError>
    requires { IsBlank response.old }
    ensures { OnOk result (IsWithoutToken response.new) }
{
    response.status = StatusCode::UNAUTHORIZED;
    add_json_fields(response)?;
    let scheme = HeaderValue::from_static("Bearer");
    response.add_header(HeaderName::from_static("www-authenticate"), scheme)?;
    response
        .body
        .push(Bytes::from_static(WITHOUT_TOKEN.as_bytes()))
}

/// Writes the response to a method that the gains do not have: 405, with the allowed methods.
pub(crate) fn refuse_method(response: &mut Response) -> Result<(), AllocError>
    requires { IsBlank response.old }
    ensures { OnOk result (IsWrongMethod response.new) }
{
    response.status = StatusCode::METHOD_NOT_ALLOWED;
    let allowed = HeaderValue::from_static("GET, HEAD, PUT");
    add_fields(response, HeaderName::from_static("allow"), allowed)
}

/// Writes JSON into a response. Returns `AllocError` if an allocation fails.
fn show(json: Vec<u8>, response: &mut Response) -> Result<(), AllocError>
    requires { IsBlank response.old }
    ensures { OnOk result (IsResponse 200 json_fields json.items response.new) }
{
    add_json_fields(response)?;
    response.body.push(shared(json)?)
}

/// Adds the header fields of JSON to a response that has none.
fn add_json_fields(response: &mut Response) -> Result<(), AllocError>
    requires none { fields_of response.old ≡ [] }
    ensures fields { OnOk result (fields_of response.new ≡ json_fields) }
    ensures status { response.new.status ≡ response.old.status }
    ensures body { response.new.body ≡ response.old.body }
{
    let json = HeaderValue::from_static("application/json");
    add_fields(response, HeaderName::from_static("content-type"), json)
}

/// Returns the response to a change that was taken, as JSON.
fn taken_json(alloc: Global, at: i64) -> Result<Vec<u8>, AllocError>
    ensures { IfOk result (λ text. text.items ≡ print (taken_tokens at)) }
{
    let mut writer = Writer::new(Vec::new(alloc));
    writer.begin_object()?;
    writer.key("at")?;
    writer.i64(at)?;
    writer.end_object()?;
    Ok(writer.into_inner())
}

/// Returns the gains that are shown and the times of the changes that are still to come, as JSON.
fn shown_json(
    alloc: Global,
    shape: GainShape,
    times: ShownTimes,
    planned: &[i64],
    gains: &[i32],
) -> Result<Vec<u8>, AllocError>
    ensures { IfOk result (λ text. text.items
        ≡ print (shown_tokens times planned.now (rows_of shape.ins shape.outs gains.now))) }
{
    let mut writer = Writer::new(Vec::new(alloc));
    writer.begin_object()?;
    write_times(&mut writer, times)?;
    write_planned(&mut writer, planned)?;
    write_gains(&mut writer, shape, gains)?;
    writer.end_object()?;
    Ok(writer.into_inner())
}

/// Writes the members with the times.
fn write_times(writer: &mut Writer, times: ShownTimes) -> Result<(), AllocError>
    ensures tokens { OnOk result (writer.new.tokens ≡ writer.old.tokens ++ time_members times) }
    ensures before { OnOk result (writer.new.before ≡ writer.old.before) }
{
    write_time(writer, "at", times.at)?;
    write_time(writer, "next_block_start", times.next_block_start)
}

/// Writes a member with a time.
fn write_time(writer: &mut Writer, name: &str, time: i64) -> Result<(), AllocError>
    ensures tokens { OnOk result (writer.new.tokens ≡ writer.old.tokens ++ time_member name.now time) }
    ensures before { OnOk result (writer.new.before ≡ writer.old.before) }
{
    writer.key(name)?;
    writer.i64(time)
}

/// Writes the member with the times of the changes that are still to come.
fn write_planned(writer: &mut Writer, planned: &[i64]) -> Result<(), AllocError>
    ensures tokens { OnOk result (writer.new.tokens ≡ writer.old.tokens ++ planned_tokens planned.now) }
    ensures before { OnOk result (writer.new.before ≡ writer.old.before) }
{
    writer.key("planned")?;
    writer.begin_array()?;
    write_each_time(writer, planned)?;
    writer.end_array()
}

/// Writes times one after another.
#[tactic(auto, unfolding(crate::specs::GainReplies::number_tokens))]
fn write_each_time(writer: &mut Writer, times: &[i64]) -> Result<(), AllocError>
    ensures tokens { OnOk result (writer.new.tokens ≡ writer.old.tokens ++ number_tokens times.now) }
    ensures before { OnOk result (writer.new.before ≡ writer.old.before) }
{
    for time in times {
        writer.i64(*time)?;
    }
    Ok(())
}

/// Writes the member with the gains.
fn write_gains(writer: &mut Writer, shape: GainShape, gains: &[i32]) -> Result<(), AllocError>
    ensures tokens { OnOk result (writer.new.tokens
        ≡ writer.old.tokens ++ array_tokens (codes "gains") (rows_tokens (rows_of shape.ins shape.outs gains.now))) }
    ensures before { OnOk result (writer.new.before ≡ writer.old.before) }
{
    writer.key("gains")?;
    writer.begin_array()?;
    write_rows(writer, shape.ins(), shape.outs(), gains)?;
    writer.end_array()
}

/// Writes this many rows of gains.
fn write_rows(writer: &mut Writer, ins: usize, outs: usize, gains: &[i32]) -> Result<(), AllocError>
    ensures tokens { OnOk result (writer.new.tokens ≡ writer.old.tokens ++ rows_tokens (rows_of ins outs gains.now)) }
    ensures before { OnOk result (writer.new.before ≡ writer.old.before) }
{
    if outs == 0 {
        return Ok(());
    }
    let (row, rest) = gains.split_at(ins.min(gains.len()));
    write_row(writer, row)?;
    write_rows(writer, ins, outs - 1, rest)
}

/// Writes a row of gains.
fn write_row(writer: &mut Writer, row: &[i32]) -> Result<(), AllocError>
    ensures tokens { OnOk result (writer.new.tokens ≡ writer.old.tokens ++ row_tokens row.now) }
    ensures before { OnOk result (writer.new.before ≡ writer.old.before) }
{
    writer.begin_array()?;
    write_numbers(writer, row)?;
    writer.end_array()
}

/// Writes numbers one after another.
#[tactic(auto, unfolding(crate::specs::GainReplies::number_tokens))]
fn write_numbers(writer: &mut Writer, numbers: &[i32]) -> Result<(), AllocError>
    ensures tokens { OnOk result (writer.new.tokens ≡ writer.old.tokens ++ number_tokens numbers.now) }
    ensures before { OnOk result (writer.new.before ≡ writer.old.before) }
{
    for number in numbers {
        writer.i64(i64::from(*number))?;
    }
    Ok(())
}
