// The calls for programs in C, which `c_calls_c` exports: a slice is lent as its first word and its length.
#![tactic(auto)]

ghost use Rattle.std.specs.Prelude.{◌≡◌};
ghost use Rattle.points.specs.Rule.{plain_rule};
ghost use Rattle.points.specs.Scale.{plain_scale};
ghost use Rattle.words.specs.Refusal.{number_told};
ghost use Rattle.calls.specs.Reply.{replied};
ghost use Rattle.calls.specs.Open.{open_of};
ghost use Rattle.calls.specs.Submit.{submit_of};
ghost use Rattle.calls.specs.Step.{step_of};
ghost use Rattle.calls.specs.Run.{run_of};
ghost use Rattle.calls.specs.Take.{take_of, take_words};
ghost use Rattle.calls.specs.Withdraw.{withdraw_of};
ghost use Rattle.calls.specs.Report.{places_told, report_of};
ghost use Rattle.calls.specs.Audit.{verdict_of, yes_told};

use audits::audit::audit;
use openings::open::open;
use points::point::Point;
use points::rule::PLAIN_RULE;
use points::scale::{Scale, plain_scale};
use reports::report::read_report;
use runs::run::run;
use steps::step::step;
use steps::withdraw::withdraw;
use submissions::submit::submit;
use takings::take::take;
use words::refusal::number_told;

// Opening under rule 1, with factors of one.
#[unsafe(no_mangle)]
pub extern "C" fn index_open(words: &mut [u32], places: u32, limit: u32) -> u32
    ensures { replied result words.new ≡ open_of words.old places limit plain_scale }
{
    number_told(open(words, places, limit, plain_scale()))
}

// Opening under rule 1, with a factor for each of the axes 2 to 5.
#[unsafe(no_mangle)]
pub extern "C" fn index_open_scaled(
    words: &mut [u32],
    places: u32,
    limit: u32,
    weight: u32,
    moisture: u32,
    speed: u32,
    draw: u32,
) -> u32
    ensures { replied result words.new ≡ open_of words.old places limit (record { rule = plain_rule; weight = weight; moisture = moisture; speed = speed; draw = draw }) }
{
    let scale = Scale {
        rule: PLAIN_RULE,
        weight,
        moisture,
        speed,
        draw,
    };
    number_told(open(words, places, limit, scale))
}

// Opening, with a factor for each of the axes 2 to 5 and a rule.
#[unsafe(no_mangle)]
pub extern "C" fn index_open_ruled(
    words: &mut [u32],
    places: u32,
    limit: u32,
    weight: u32,
    moisture: u32,
    speed: u32,
    draw: u32,
    rule: u32,
) -> u32
    ensures { replied result words.new ≡ open_of words.old places limit (record { rule = rule; weight = weight; moisture = moisture; speed = speed; draw = draw }) }
{
    let scale = Scale {
        rule,
        weight,
        moisture,
        speed,
        draw,
    };
    number_told(open(words, places, limit, scale))
}

// A submission of station s, with the coordinates of its point.
#[unsafe(no_mangle)]
pub extern "C" fn index_submit(
    words: &mut [u32],
    s: u32,
    kind: u32,
    grade: i32,
    weight: i32,
    moisture: i32,
    speed: i32,
    draw: i32,
    curve: u32,
) -> u32
    ensures { replied result words.new ≡ submit_of words.old s kind (record { grade = grade; weight = weight; moisture = moisture; speed = speed; draw = draw }) curve }
{
    let point = Point {
        grade,
        weight,
        moisture,
        speed,
        draw,
    };
    number_told(submit(words, s, kind, point, curve))
}

// One step of station s.
#[unsafe(no_mangle)]
pub extern "C" fn index_step(words: &mut [u32], s: u32) -> u32
    ensures { replied result words.new ≡ step_of words.old s }
{
    number_told(step(words, s))
}

// Steps of station s until it is answered.
#[unsafe(no_mangle)]
pub extern "C" fn index_run(words: &mut [u32], s: u32) -> u32
    ensures { replied result words.new ≡ run_of words.old s }
{
    number_told(run(words, s))
}

// A taking by station s. Its answer stays in the words of the station's record.
#[unsafe(no_mangle)]
pub extern "C" fn index_take(words: &mut [u32], s: u32) -> u32
    ensures { (result ≡ number_told (take_of words.old s)) × (words.new ≡ take_words words.old s) }
{
    number_told(take(words, s))
}

// Takes back the unfinished call of station s.
#[unsafe(no_mangle)]
pub extern "C" fn index_withdraw(words: &mut [u32], s: u32) -> u32
    ensures { replied result words.new ≡ withdraw_of words.old s }
{
    number_told(withdraw(words, s))
}

// The number of a report.
#[unsafe(no_mangle)]
pub extern "C" fn index_report_number(words: &[u32]) -> u32
    ensures { result ≡ number_told (report_of words.now) }
{
    number_told(read_report(words))
}

// The places taken, 0 with a refusal.
#[unsafe(no_mangle)]
pub extern "C" fn index_report(words: &[u32]) -> u64
    ensures { result ≡ places_told (report_of words.now) }
{
    read_report(words).unwrap_or(0)
}

// The number of an audit.
#[unsafe(no_mangle)]
pub extern "C" fn index_audit_number(words: &[u32]) -> u32
    ensures { result ≡ number_told (verdict_of words.now) }
{
    number_told(audit(words))
}

// Whether the audit says yes; not with a refusal.
#[unsafe(no_mangle)]
pub extern "C" fn index_audit(words: &[u32]) -> bool
    ensures { result ≡ yes_told (verdict_of words.now) }
{
    audit(words).unwrap_or(false)
}
