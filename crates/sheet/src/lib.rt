// The exam sheet of a segment record: everything is decided first, then the three profiles are filled, then the page.
#![tactic(auto)]

ghost use Rattle.std.specs.Prelude.{◌≡◌, ◌+◌, ◌≤◌, length};
ghost use Rattle.buffer.specs.Buffer.{WroteAt};
ghost use Rattle.propagation.specs.Propagation.{Same, filled_of, held};
ghost use Rattle.propagation.specs.Steps.{Room};
ghost use Rattle.working_outcome.specs.Answer.{worked_of};
ghost use Rattle.working.specs.Decided.{Decided};
ghost use Rattle.working.specs.Working.{by_decision, decision_for};
ghost use Rattle.page.specs.Page.{page_room};
ghost use Rattle.sheet_page.specs.SheetPage.{worked_page};
ghost use Rattle.sheet.specs.Sheet.{Sheets, printed, sheet_by, sheet_called};

use balance_decision::{Decision, Unworked};
use buffer::Writer;
use page::PAGE_ROOM;
use propagation::LentProfiles;
use ranges::Accepted;
use refusal::{Refusal, need};
use working_outcome::Working;

// The page of a record that has worked, to the front of a buffer; the place behind it is handed back, as the contract
// names it.
fn put_page(number: u32, cycle: u32, w: Working, profiles: &LentProfiles, page: &mut [u8]) -> usize
    requires { cycle + cycle ≤ length profiles.now.output.now }
    ensures { WroteAt page.old 0 (worked_page number cycle w profiles.now.output.now) page.new result }
{
    let output = &*profiles.output;
    let mut text = Writer { bytes: page, at: 0 };
    sheet_page::worked_page(&mut text, number, cycle, w, output);
    text.at
}

// Fills the profiles of a record that is decided to work, then the page.
fn fill(
    number: u32,
    accepted: Accepted,
    decision: Decision,
    page: &mut [u8],
    profiles: &mut LentProfiles,
) -> Working
    requires { Decided accepted decision (held profiles.old) × (page_room ≤ length page.old) }
    ensures same { Same profiles.old profiles.new }
    ensures filled { sheet_called (Ok result) (held profiles.new) page.new
        ≡ printed number accepted.cycle (worked_of accepted decision) (filled_of accepted decision.pairs.rows (held profiles.old)) page.old }
{
    let w = working::fill(accepted, decision, profiles);
    put_page(number, accepted.segment.cycle, w, profiles, page);
    w
}

// An accepted record: the volumes are decided, then the page buffer, before anything is written.
#[tactic(auto, unfolding(refusal::specs::Refusal::need))]
fn sheet_accepted(
    number: u32,
    accepted: Accepted,
    page: &mut [u8],
    profiles: &mut LentProfiles,
) -> Result<Working, Unworked>
    requires { Room accepted.cycle (held profiles.old) }
    ensures same { Same profiles.old profiles.new }
    ensures called { sheet_called result (held profiles.new) page.new
        ≡ sheet_by number accepted.cycle (by_decision accepted (decision_for accepted) (held profiles.old)) (held profiles.old) page.old }
{
    let decision = working::decide(accepted)?;
    need(Refusal::PageRoom, PAGE_ROOM <= page.len())?;
    Ok(fill(number, accepted, decision, page, profiles))
}

// Works a segment record as `working::work` does, and writes its page to the front of the page buffer. A buffer under PAGE_ROOM is
// refused with 21, after the working's own refusals. Where it does not work, nothing is written.
pub fn sheet(
    bytes: &[u8],
    page: &mut [u8],
    profiles: &mut LentProfiles,
) -> Result<Working, Unworked>
    ensures same { Same profiles.old profiles.new }
    ensures sheets { Sheets bytes.now (held profiles.old) page.old result (held profiles.new) page.new }
{
    let accepted = working::accept(bytes, profiles)?;
    let number = octets::word4_at(bytes, segment::NUMBER_AT);
    sheet_accepted(number, accepted, page, profiles)
}
