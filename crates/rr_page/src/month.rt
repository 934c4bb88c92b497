// The months of a difference on a page.
ghost use Rattle.std.specs.Prelude.{◌≡◌, ◌<◌, ◌^◌, ◌++◌, IfOk, OnOk};
ghost use Rattle.rr_html.specs.Markup.{html_text};
ghost use Rattle.rr_html.specs.Pieces.{piece_text};
ghost use Rattle.rr_model.specs.Calendar.{IsDayWithin, weekday_of};
ghost use Rattle.rr_page.specs.Month.{begins_row, caption_text, cell_html, cell_piece, cells_html, each_month_html, grid_html, is_known_day, known_month_html, month_html, months_html, out_html, sign_piece, times_html};

use crate::put::{put_if, put_number};
use rr_cal::{date_of, weekday};
use rr_html::{EventPiece, Markup, MonthPiece, Piece};
use rr_model::{MAX_DAY, NoMemory};
use rr_text::push_unsigned;
use rr_trip::Month;
use rr_wording::month_name;
use std::alloc::Global;

// The month of a day, as `April 2024`.
#[tactic(auto, unfolding(crate::specs::Month::caption_text))]
fn caption_of(alloc: Global, first: i64) -> Result<Vec<u8>, NoMemory>
    requires { IsDayWithin 0 first }
    ensures { IfOk result (λ text. text.items ≡ caption_text first) }
{
    let date = date_of(first);
    let mut text = Vec::new(alloc);
    text.extend_from_slice(month_name(u64::from(date.month)))?;
    text.extend_from_slice(b" ")?;
    push_unsigned(&mut text, date.year.unsigned_abs())?;
    Ok(text)
}

// ---- days

// The start of the cell of a day, by its sign.
fn cell_piece(sign: u8) -> MonthPiece
    ensures { result ≡ cell_piece sign }
{
    match sign {
        b'=' => MonthPiece::CellSame,
        b'x' => MonthPiece::CellOther,
        b'A' => MonthPiece::CellA,
        b'B' => MonthPiece::CellB,
        _ => MonthPiece::CellNone,
    }
}

// The end of the cell of a day, by its sign.
fn sign_piece(sign: u8) -> MonthPiece
    ensures { result ≡ sign_piece sign }
{
    match sign {
        b'=' => MonthPiece::SignSame,
        b'x' => MonthPiece::SignOther,
        b'A' => MonthPiece::SignA,
        b'B' => MonthPiece::SignB,
        _ => MonthPiece::SignNone,
    }
}

// Whether a day that is `days` days after the first of its month begins a row: a Monday does, but not the first.
fn begins_row(weekday: u8, days: u64) -> bool
    requires weekday { weekday < 7 }
    requires days { days < 2 ^ 63 }
    ensures { result ≡ begins_row weekday days }
{
    days > 0 && (u64::from(weekday) + days) % 7 == 0
}

// Puts the day that is `days` days after the first of its month.
fn put_cell(
    alloc: Global,
    page: &mut Markup,
    weekday: u8,
    days: usize,
    sign: u8,
) -> Result<(), NoMemory>
    requires weekday { weekday < 7 }
    requires days { days < 2 ^ 63 }
    ensures { OnOk result (page.new ≡ page.old ++ cell_html weekday days sign) }
{
    put_if(
        page,
        begins_row(weekday, days as u64),
        Piece::Month(MonthPiece::WeekEnd),
    )?;
    page.piece(Piece::Month(cell_piece(sign)))?;
    put_number(alloc, page, days as u64 + 1)?;
    page.piece(Piece::Month(sign_piece(sign)))
}

// Days in a row with these signs.
fn put_cells(alloc: Global, page: &mut Markup, weekday: u8, signs: &[u8]) -> Result<(), NoMemory>
    requires { weekday < 7 }
    ensures { OnOk result (page.new ≡ page.old ++ cells_html weekday 0 signs.now) }
{
    for days in 0..signs.len() {
        put_cell(alloc, page, weekday, days, signs[days])?;
    }
    Ok(())
}

// The cells before the first day.
fn put_out_cells(page: &mut Markup, count: u8) -> Result<(), NoMemory>
    ensures { OnOk result (page.new ≡ page.old ++ out_html count) }
{
    for _ in 0..count {
        page.piece(Piece::Month(MonthPiece::OutCell))?;
    }
    Ok(())
}

// ---- months

// Whether the calendar can tell the month of a day.
fn is_known_day(day: i64) -> bool
    ensures { result ≡ is_known_day day }
{
    -MAX_DAY <= day && day <= MAX_DAY
}

// A month with this caption, whose first day lies on this weekday, with the signs of its days.
#[tactic(auto, unfolding(crate::specs::Month::grid_html))]
fn put_grid(
    alloc: Global,
    page: &mut Markup,
    caption: &[u8],
    weekday: u8,
    signs: &[u8],
) -> Result<(), NoMemory>
    requires { weekday < 7 }
    ensures { OnOk result (page.new ≡ page.old ++ grid_html caption.now weekday signs.now) }
{
    page.piece(Piece::Month(MonthPiece::MonthStart))?;
    page.text(caption)?;
    page.piece(Piece::Month(MonthPiece::MonthHead))?;
    put_out_cells(page, weekday)?;
    put_cells(alloc, page, weekday, signs)?;
    page.piece(Piece::Month(MonthPiece::MonthEnd))
}

// The month that begins on a day, with the signs of its days.
fn put_known_month(
    alloc: Global,
    page: &mut Markup,
    first: i64,
    signs: &[u8],
) -> Result<(), NoMemory>
    requires { IsDayWithin 0 first }
    ensures { OnOk result (page.new ≡ page.old ++ known_month_html first signs.now) }
{
    let caption = caption_of(alloc, first)?;
    put_grid(alloc, page, &caption, weekday(first), signs)
}

// A month, if the calendar reaches so far.
#[tactic(auto, unfolding(crate::specs::Month::month_html))]
fn put_month(alloc: Global, page: &mut Markup, month: &Month) -> Result<(), NoMemory>
    ensures { OnOk result (page.new ≡ page.old ++ month_html month.now) }
{
    if is_known_day(month.first) {
        return put_known_month(alloc, page, month.first, &month.signs);
    }
    Ok(())
}

fn put_each_month(alloc: Global, page: &mut Markup, months: &[Month]) -> Result<(), NoMemory>
    ensures { OnOk result (page.new ≡ page.old ++ each_month_html months.now) }
{
    for month in months {
        put_month(alloc, page, month)?;
    }
    Ok(())
}

// The months, if there are some.
#[tactic(auto, unfolding(crate::specs::Month::months_html))]
pub(crate) fn put_months(alloc: Global, page: &mut Markup, months: &[Month]) -> Result<(), NoMemory>
    ensures { OnOk result (page.new ≡ page.old ++ months_html months.now) }
{
    match months {
        [] => Ok(()),
        [_, ..] => {
            page.piece(Piece::Month(MonthPiece::MonthsStart))?;
            put_each_month(alloc, page, months)?;
            page.piece(Piece::Month(MonthPiece::MonthsEnd))
        }
    }
}

// The usual times and the days with others, if there are some.
#[tactic(auto, unfolding(crate::specs::Month::times_html))]
pub(crate) fn put_times(page: &mut Markup, times: &[u8]) -> Result<(), NoMemory>
    ensures { OnOk result (page.new ≡ page.old ++ times_html times.now) }
{
    match times {
        [] => Ok(()),
        [_, ..] => {
            page.piece(Piece::Event(EventPiece::TimesStart))?;
            page.text(times)?;
            page.piece(Piece::Event(EventPiece::TimesEnd))
        }
    }
}
