//! Days, weeks and months as another calendar has them.
use iss_model::Window;
use iss_time::window;
use std::test::Fail;

/// Each stamp's day, week and month, as Python's `datetime` has them: the ends of days, weeks, months and years, leap days, and no leap day in 2100.
#[test]
fn windows_of_an_independent_calendar(rt: HostRuntime) -> Result<(), Fail> {
    let table = [
        (0, 0, 0, 23_641),
        (86_399_999, 0, 0, 23_641),
        (86_400_000, 1, 0, 23_641),
        (259_199_999, 2, 0, 23_641),
        (259_200_000, 3, 1, 23_641),
        (2_678_399_999, 30, 4, 23_641),
        (2_678_400_000, 31, 5, 23_642),
        (68_169_599_999, 788, 113, 23_666),
        (68_255_999_999, 789, 113, 23_666),
        (68_256_000_000, 790, 113, 23_667),
        (94_694_399_999, 1_095, 157, 23_676),
        (951_782_400_000, 11_016, 1_574, 24_002),
        (951_868_799_999, 11_016, 1_574, 24_002),
        (951_868_800_000, 11_017, 1_574, 24_003),
        (1_735_430_399_999, 20_085, 2_869, 24_300),
        (1_735_430_400_000, 20_086, 2_870, 24_300),
        (4_107_456_000_000, 47_540, 6_792, 25_202),
        (4_107_542_399_999, 47_540, 6_792, 25_202),
        (4_107_542_400_000, 47_541, 6_792, 25_203),
        (13_574_563_200_000, 157_113, 22_445, 28_802),
        (253_370_678_400_000, 2_932_531, 418_933, 119_988),
        (253_370_764_799_999, 2_932_531, 418_933, 119_988),
    ];
    for (at, day, week, month) in table {
        assert!(rt; at <= 253_370_764_799_999);
        assert_eq!(rt; window(Window::Day, at, 0), day);
        assert_eq!(rt; window(Window::Week, at, 0), week);
        assert_eq!(rt; window(Window::Month, at, 0), month);
        assert_eq!(rt; window(Window::Lifetime, at, 0), 0);
    }
    Ok(())
}

/// Days, weeks and months of clocks ahead of UTC and behind it.
#[test]
fn windows_at_offsets(rt: HostRuntime) -> Result<(), Fail> {
    assert_eq!(rt; window(Window::Day, 0, -300), -1);
    assert_eq!(rt; window(Window::Week, 0, -300), 0);
    assert_eq!(rt; window(Window::Month, 0, -300), 23_640);
    assert_eq!(rt; window(Window::Day, 66_599_999, 330), 0);
    assert_eq!(rt; window(Window::Day, 66_600_000, 330), 1);
    assert_eq!(rt; window(Window::Week, 277_199_999, -300), 0);
    assert_eq!(rt; window(Window::Week, 277_200_000, -300), 1);
    assert_eq!(rt; window(Window::Month, 2_721_599_999, -720), 23_641);
    assert_eq!(rt; window(Window::Month, 2_721_600_000, -720), 23_642);
    assert_eq!(rt; window(Window::Lifetime, 0, -300), 0);
    assert_eq!(rt; window(Window::Month, 253_370_764_799_999, 840), 119_989);
    Ok(())
}
