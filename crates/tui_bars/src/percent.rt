//! Shares in percent, and the columns that they fill.

ghost use Rattle.std.specs.Prelude.{◌≡◌, ◌+◌, ◌*◌, ◌++◌, ◌<◌, ◌≤◌, ◌^◌, [], ◌∷◌, Err, IfOk, IsOk, codes, decimal, true, false};
ghost use Rattle.tui_bars.specs.Percent.{eighths_of, fill_of, half_even, padded, percent_label, percent_of};
ghost use Rattle.tui_text.specs.Setting.{AreAllocationFree};
ghost use Rattle.tui_text.specs.Span.{raw_span};

use crate::error::GaugeError;
use crate::share::Share;
use arrayvec::ArrayString;
use itoa::Buffer as Digits;
use tui_layout::Fraction;

/// Returns the share of this many percent.
pub(crate) fn share_of_percent(percent: u16) -> Result<Share, GaugeError>
    ensures ok { percent ≤ 100 → IsOk result }
    ensures is { IfOk result (λ share. (share.num ≡ percent) × (share.den ≡ 100)) }
    ensures rejected { 100 < percent → result ≡ Err GaugeError.PercentAbove100 }
{
    if percent > 100 {
        return Err(GaugeError::PercentAbove100);
    }
    Ok(Share {
        num: u64::from(percent),
        den: 100,
    })
}

/// Returns the share of a fraction from 0 to 1.
pub(crate) fn share_of(ratio: Fraction) -> Result<Share, GaugeError>
    ensures ok { 0 < ratio.den → ratio.num ≤ ratio.den → IsOk result }
    ensures is { IfOk result (λ share. (share.num ≡ ratio.num) × (share.den ≡ ratio.den)) }
    ensures zero { ratio.den ≡ 0 → result ≡ Err GaugeError.RatioOutOfRange }
    ensures above { ratio.den < ratio.num → result ≡ Err GaugeError.RatioOutOfRange }
{
    let Fraction { num, den } = ratio;
    if den == 0 || num > den {
        return Err(GaugeError::RatioOutOfRange);
    }
    Ok(Share { num, den })
}

/// Returns the share in percent, rounded to the nearest number, halves up.
fn percent_of(share: Share) -> u64
    ensures is { result ≡ percent_of share.num share.den }
    ensures bound { result ≤ 100 }
{
    let (num, den) = (u128::from(share.num), u128::from(share.den));
    ((200 * num + den) / (2 * den)) as u64
}

/// Returns the share in percent with a percent sign. It does not allocate.
#[tactic(auto, using(crate::proofs::AllocationFreeNumbers::percent_allocation_free))]
pub(crate) fn percent_text(share: Share) -> ArrayString<24>
    ensures is { result.bytes ≡ decimal (percent_of share.num share.den) ++ codes "%" }
    ensures allocation_free { AreAllocationFree (raw_span result.bytes ∷ []) }
{
    let mut digits = Digits::new();
    let mut text = ArrayString::new();
    text.push_str(digits.format(percent_of(share)));
    text.push('%');
    text
}

/// Returns a quotient rounded to the nearest number, halves to the even one.
fn half_even(a: u128, b: u128) -> u128
    requires { (0 < b) × (b < 2 ^ 96) }
    ensures is { result ≡ half_even a b }
{
    let quotient = a / b;
    let twice = 2 * (a % b);
    if twice > b || twice == b && quotient % 2 == 1 {
        quotient + 1
    } else {
        quotient
    }
}

/// Returns a percentage with a percent sign, padded to three digits. It does not allocate.
fn padded(percent: u128) -> ArrayString<48>
    ensures { result.bytes ≡ padded percent }
{
    let mut digits = Digits::new();
    let mut text = ArrayString::new();
    if percent < 100 {
        text.push(' ');
    }
    if percent < 10 {
        text.push(' ');
    }
    text.push_str(digits.format(percent));
    text.push('%');
    text
}

/// Returns the share in percent, padded to three digits, rounded to the nearest number, halves to the even one.
#[tactic(auto, using(crate::proofs::AllocationFreeNumbers::padded_allocation_free))]
pub(crate) fn percent_label(share: Share) -> ArrayString<48>
    ensures is { result.bytes ≡ percent_label share.num share.den }
    ensures allocation_free { AreAllocationFree (raw_span result.bytes ∷ []) }
{
    padded(half_even(100 * u128::from(share.num), u128::from(share.den)))
}

/// Returns how many whole columns of a width the share fills.
pub(crate) fn whole_columns(width: u16, share: Share) -> u16
    ensures { result ≡ fill_of true width share.num share.den }
{
    let part = u128::from(width) * u128::from(share.num);
    (part / u128::from(share.den)) as u16
}

/// Returns how many columns of a width the share fills, rounded.
pub(crate) fn rounded_columns(width: u16, share: Share) -> u16
    ensures { result ≡ fill_of false width share.num share.den }
{
    let part = u128::from(width) * u128::from(share.num);
    let den = u128::from(share.den);
    ((2 * part + den) / (2 * den)) as u16
}

/// Returns how many eighths of the column after the whole ones are filled, rounded.
pub(crate) fn eighths_of(width: u16, share: Share) -> u8
    ensures { result ≡ eighths_of width share.num share.den }
{
    let den = u128::from(share.den);
    let part = u128::from(width) * u128::from(share.num) % den;
    ((16 * part + den) / (2 * den)) as u8
}
