//! Laws of the modelled kernel that are promised to users.
ghost use Rattle.processes.specs.Attached.{TestIsRight};
ghost use Rattle.processes.specs.Laws.{FirstFilterStays, GroupsStayLed, NoneOutlivesGroup1, NumbersAscend};

/// The test by which attached programs are taken is true exactly where the kernel's check accepts.
pub fn attached_programs_are_checked()
    ensures { TestIsRight }
{}

/// Every task of a container has the container's first filter as its oldest.
pub fn first_filter_stays()
    ensures { FirstFilterStays }
{}

/// Tasks stand in the order of their numbers, so that no number stands twice.
pub fn numbers_ascend()
    ensures { NumbersAscend }
{}

/// The task that bears the number of a group is there, and is of it.
pub fn groups_stay_led()
    ensures { GroupsStayLed }
{}

/// Where no task of group 1 lives, no task of the container does.
pub fn none_outlives_group_1()
    ensures { NoneOutlivesGroup1 }
{}
