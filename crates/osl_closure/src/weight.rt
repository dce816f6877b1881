ghost use Rattle.std.specs.Prelude.{◌≡◌};
ghost use Rattle.std.specs.List.{list_all};
ghost use Rattle.osl_value.specs.Numbers.{is_zero};
ghost use Rattle.osl_closure.specs.Weights.{times};

use osl_value::Fx;

/// Whether a weight is zero on all channels.
pub(crate) fn is_black(weight: [Fx; 3]) -> bool
    ensures { result ≡ list_all is_zero weight }
{
    weight.iter().all(|channel| channel.units() == 0)
}

/// The product channel by channel, the factor on the left.
pub(crate) fn color_times(by: [Fx; 3], weight: [Fx; 3]) -> [Fx; 3]
    ensures { result ≡ times by weight }
{
    [
        by[0].mul(weight[0]),
        by[1].mul(weight[1]),
        by[2].mul(weight[2]),
    ]
}
