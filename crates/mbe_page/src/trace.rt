// The steps of a run as JSON, an object in each line: the files first, and then each call.
use crate::call_view::{CallView, call_view};
use crate::page_data::{PageData, whole_data};
use crate::trace_states::write_rules;
use crate::trace_values::{
    separator, write_known_place, write_number, write_place, write_tokens, write_variables,
};
use mbe_markup::json::{Json, Piece};
use mbe_markup::token_text::token_text;
use mbe_session::file_expander::call_steps::{CallState, CallStep};
use mbe_session::notes::Level;
use mbe_session::session::Session;
use mbe_session::session_options::SessionOptions;
use mbe_session::source_files::SourceFile;
use std::alloc::{AllocError, Global};

// The version of the data. It grows if a member is dropped, or has another meaning.
const VERSION: usize = 1;

// Writes the names of the files, by their numbers.
fn write_names(alloc: Global, json: &mut Json, files: &[SourceFile<'_>]) -> Result<(), AllocError> {
    for (index, file) in files.iter().enumerate() {
        json.write(alloc, &[separator(index), Piece::Text(file.name)])?;
    }
    Ok(())
}

// Writes the first line: the version of the data, and the names of the files.
fn write_files(alloc: Global, json: &mut Json, files: &[SourceFile<'_>]) -> Result<(), AllocError> {
    json.write(
        alloc,
        &[
            Piece::Mark("{\"reason\":\"files\",\"version\":"),
            Piece::Number(VERSION),
            Piece::Mark(",\"files\":["),
        ],
    )?;
    write_names(alloc, json, files)?;
    json.write(alloc, &[Piece::Mark("]}\n")])
}

// Returns the name of a state.
fn state_name(state: CallState) -> &'static str {
    match state {
        CallState::Expanded => "\"expanded\"",
        CallState::Failed => "\"failed\"",
        CallState::Unknown => "\"unknown\"",
    }
}

// Writes the first members of a call: its number, the call that it is in, its state and its name.
fn write_front(
    alloc: Global,
    json: &mut Json,
    step: &CallStep,
    index: usize,
) -> Result<(), AllocError> {
    write_call_number(alloc, json, index)?;
    write_number(alloc, json, step.place.parent)?;
    write_state(alloc, json, step.state)?;
    json.write(alloc, &[Piece::Text(step.name.as_str())])
}

// Writes the number of a call, and the name of the member after it.
fn write_call_number(alloc: Global, json: &mut Json, index: usize) -> Result<(), AllocError> {
    json.write(
        alloc,
        &[
            Piece::Mark("{\"reason\":\"call\",\"call\":"),
            Piece::Number(index),
            Piece::Mark(",\"parent\":"),
        ],
    )
}

// Writes the state of a call, and the name of the member after it.
fn write_state(alloc: Global, json: &mut Json, state: CallState) -> Result<(), AllocError> {
    json.write(
        alloc,
        &[
            Piece::Mark(",\"state\":"),
            Piece::Mark(state_name(state)),
            Piece::Mark(",\"macro\":"),
        ],
    )
}

// Writes where a call begins and ends, and where the name of its macro is defined.
fn write_places(
    alloc: Global,
    json: &mut Json,
    shown: &PageData<'_>,
    step: &CallStep,
    view: &CallView<'_>,
) -> Result<(), AllocError> {
    json.write(alloc, &[Piece::Mark(",\"start\":")])?;
    write_place(alloc, json, shown, step.start)?;
    json.write(alloc, &[Piece::Mark(",\"end\":")])?;
    write_place(alloc, json, shown, step.end)?;
    json.write(alloc, &[Piece::Mark(",\"definition\":")])?;
    let definition = match view.called {
        Some(called) => called.name_span,
        None => None,
    };
    write_known_place(alloc, json, shown, definition)
}

// Writes the rule that applies, from 1, and its variables.
fn write_rule(
    alloc: Global,
    json: &mut Json,
    shown: &PageData<'_>,
    view: &CallView<'_>,
) -> Result<(), AllocError> {
    json.write(alloc, &[Piece::Mark(",\"rule\":")])?;
    let rule = match view.rule {
        Some(rule) => Some(rule.saturating_add(1)),
        None => None,
    };
    write_number(alloc, json, rule)?;
    json.write(alloc, &[Piece::Mark(",\"variables\":")])?;
    write_variables(alloc, json, shown, view)
}

// Writes the argument of a call.
fn write_argument(alloc: Global, json: &mut Json, step: &CallStep) -> Result<(), AllocError> {
    let argument = token_text(alloc, step.argument.iter().remaining())?;
    json.write(
        alloc,
        &[
            Piece::Mark(",\"argument\":"),
            Piece::Text(argument.text.as_str()),
        ],
    )
}

// Writes the expansion of a call and its tokens; `null` if there is none.
fn write_expansion(
    alloc: Global,
    json: &mut Json,
    shown: &PageData<'_>,
    step: &CallStep,
    view: &CallView<'_>,
) -> Result<(), AllocError> {
    let Some(tree) = &step.expansion else {
        return json.write(alloc, &[Piece::Mark(",\"expansion\":null,\"tokens\":[]")]);
    };
    let written = token_text(alloc, tree.iter().remaining())?;
    json.write(
        alloc,
        &[
            Piece::Mark(",\"expansion\":"),
            Piece::Text(written.text.as_str()),
            Piece::Mark(",\"tokens\":"),
        ],
    )?;
    write_tokens(alloc, json, shown, view, step.contexts, &written)
}

// Writes the errors of a call, as a list.
fn write_errors(
    alloc: Global,
    json: &mut Json,
    shown: &PageData<'_>,
    step: &CallStep,
) -> Result<(), AllocError> {
    let (from, to) = step.notes;
    let mut count = 0usize;
    for note in shown.session.expander.notes.iter().take(to).skip(from) {
        if matches!(note.level, Level::Error) {
            json.write(
                alloc,
                &[separator(count), Piece::Text(note.message.as_str())],
            )?;
            count = count.saturating_add(1);
        }
    }
    Ok(())
}

// Writes a call, in a line.
fn write_call(
    alloc: Global,
    json: &mut Json,
    shown: &PageData<'_>,
    step: &CallStep,
    index: usize,
) -> Result<(), AllocError> {
    let view = call_view(alloc, shown, step)?;
    write_front(alloc, json, step, index)?;
    write_places(alloc, json, shown, step, &view)?;
    write_rule(alloc, json, shown, &view)?;
    write_argument(alloc, json, step)?;
    write_rules(alloc, json, shown, step, &view)?;
    write_expansion(alloc, json, shown, step, &view)?;
    json.write(alloc, &[Piece::Mark(",\"errors\":[")])?;
    write_errors(alloc, json, shown, step)?;
    json.write(alloc, &[Piece::Mark("]}\n")])
}

// Writes each call.
fn write_calls(alloc: Global, json: &mut Json, shown: &PageData<'_>) -> Result<(), AllocError> {
    for (index, step) in shown.steps.iter().enumerate() {
        write_call(alloc, json, shown, step, index)?;
    }
    Ok(())
}

/// Returns the steps of a session as JSON, an object in each line. `Session::call_steps` returned
/// `steps`, and the session was opened with `options`. `AllocError` if out of memory.
pub fn trace_text(
    alloc: Global,
    options: &SessionOptions<'_>,
    session: &Session<'_>,
    steps: &[CallStep],
) -> Result<String, AllocError> {
    let mut json = Json::new(alloc);
    write_files(alloc, &mut json, session.files.as_slice())?;
    if let Some(shown) = whole_data(alloc, options, session, steps)? {
        write_calls(alloc, &mut json, &shown)?;
    }
    Ok(json.into_text())
}
